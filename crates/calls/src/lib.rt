// The session calls on a session that is known to be sound: what the plain model answers, and what it writes. Unmatched vertices are
// marked.
#![tactic(auto)]

ghost use Rattle.std.specs.Prelude.{◌≡◌, ℕ};
ghost use Rattle.matching.specs.Decision.{because};
ghost use Rattle.matching.specs.Model.{pick, automatic, undo, denied};
ghost use Rattle.matching.specs.Host.{answer_number};
ghost use Rattle.refusals.specs.Meaning.{cause_number};
ghost use Rattle.calls.specs.Meaning.{call_is, answer_of, AnswerFits};
ghost use Rattle.calls.specs.Known.{KnownWith, CalledWith, KnownFor, CalledFor};

use graph::Graph;
use numbers::AnswerKind;
use pairing::Pair;
use refusals::{Cause, Refusal};

// A session call that changes the pairs: a pick of two vertices, an automatic pick, or an undo.
#[derive(Clone, Copy)]
pub enum Call {
    Pick(usize, usize),
    Automatic,
    Undo,
}

// What a call answers: the pair appended or removed, or a refusal.
pub type Answer = Result<Pair, Refusal>;

// An answer, and the pairs made after it.
#[derive(Clone, Copy)]
pub struct Reply {
    pub made: usize,
    pub answer: Answer,
}

// Returns the number that answers the host, with the pairs made after the call.
pub fn number(answer: Answer, made: usize) -> u64
    requires { AnswerFits answer made }
    ensures { (n : ℕ) → result ≡ answer_number (answer_of answer) (record { size = n; made = made }) }
{
    match answer {
        Ok(pair) => {
            let value = pair.smaller as u64 + 256 * (pair.larger as u64);
            numbers::carried(AnswerKind::Pair, value, made as u64)
        }
        Err(refusal) => numbers::refused(refusal),
    }
}

// Refuses a call for a cause, and leaves the pairs made as they are.
fn deny(cause: Cause, made: usize) -> Reply
    ensures { (result.made ≡ made) × (answer_of result.answer ≡ denied (because (cause_number cause) 0)) }
{
    Reply {
        made,
        answer: Err(refusals::because(cause, 0)),
    }
}

// Picks a and b.
pub fn pick(
    n: usize,
    made: usize,
    adjacency: &[u8],
    inverse: &mut [u16],
    sequence: &mut [u8],
    marks: &mut [u8],
    a: usize,
    b: usize,
) -> Reply
    requires { KnownFor n made adjacency.now inverse.old sequence.old marks.old }
    ensures { CalledFor (pick a b) n made adjacency.now inverse.old sequence.old marks.old result
        inverse.new sequence.new marks.new }
{
    if let Err(refusal) = partners::judge(n, adjacency, inverse, marks, a, b) {
        return Reply {
            made,
            answer: Err(refusal),
        };
    }
    let pair = pairing::append(n, made, inverse, sequence, marks, a, b);
    Reply {
        made: made + 1,
        answer: Ok(pair),
    }
}

// Picks the lowest unmatched vertex and its lowest partner.
pub fn automatic(
    n: usize,
    made: usize,
    adjacency: &[u8],
    inverse: &mut [u16],
    sequence: &mut [u8],
    marks: &mut [u8],
) -> Reply
    requires { KnownFor n made adjacency.now inverse.old sequence.old marks.old }
    ensures { CalledFor automatic n made adjacency.now inverse.old sequence.old marks.old result
        inverse.new sequence.new marks.new }
{
    let Some(c) = partners::lowest(marks) else {
        return deny(Cause::NothingLeft, made);
    };
    let Some(r) = partners::partner(n, adjacency, inverse, marks, c) else {
        // Not reached: if the vertices left have an inverse, the lowest has a partner.
        return deny(Cause::NothingLeft, made);
    };
    let pair = pairing::append(n, made, inverse, sequence, marks, c, r);
    Reply {
        made: made + 1,
        answer: Ok(pair),
    }
}

// Removes the newest pair.
pub fn undo(
    graph: Graph,
    made: usize,
    inverse: &mut [u16],
    sequence: &mut [u8],
    marks: &mut [u8],
) -> Reply
    requires { KnownWith graph.size made graph.adjacency.now graph.weights.now inverse.old sequence.old marks.old }
    ensures { let g = graph.entry in
        CalledWith undo g.size made g.adjacency.now g.weights.now inverse.old sequence.old
        marks.old result inverse.new sequence.new marks.new }
{
    if made == 0 {
        return deny(Cause::NothingLeft, made);
    }
    let less = made - 1;
    let at = less + less;
    let a = sequence[at] as usize;
    let b = sequence[at + 1] as usize;
    if !pairing::remove(graph, less, inverse, sequence, marks, a, b) {
        return deny(Cause::RestSingular, made);
    }
    Reply {
        made: less,
        answer: Ok(Pair {
            smaller: a,
            larger: b,
        }),
    }
}

// Makes a call.
pub fn make(
    call: Call,
    graph: Graph,
    made: usize,
    inverse: &mut [u16],
    sequence: &mut [u8],
    marks: &mut [u8],
) -> Reply
    requires { KnownWith graph.size made graph.adjacency.now graph.weights.now inverse.old sequence.old marks.old }
    ensures { let g = graph.entry in
        CalledWith (call_is call) g.size made g.adjacency.now g.weights.now inverse.old
        sequence.old marks.old result inverse.new sequence.new marks.new }
{
    let n = graph.size;
    match call {
        Call::Pick(a, b) => pick(n, made, graph.adjacency, inverse, sequence, marks, a, b),
        Call::Automatic => automatic(n, made, graph.adjacency, inverse, sequence, marks),
        Call::Undo => undo(graph, made, inverse, sequence, marks),
    }
}
