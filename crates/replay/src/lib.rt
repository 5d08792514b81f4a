// Makes a list of calls, three numbers for each, one after another. The session is confirmed once, since every call keeps it sound. The
// answers are written as the host's numbers.
#![tactic(auto)]

ghost use Rattle.std.specs.Prelude.{◌≡◌, List, ℕ, ◌*◌, ◌≤◌, length};
ghost use Rattle.residue.specs.Modulus.{modulus_prime};
ghost use Rattle.matching.specs.Calls.{Returned, Runs};
ghost use Rattle.matching.specs.Replay.{calls_of, Replays, DemandThreeOf};
ghost use Rattle.matching.specs.Session.{state};
ghost use Rattle.refusals.specs.Meaning.{ruling_of};
ghost use Rattle.calls.specs.Meaning.{answer_of};
ghost use Rattle.calls.specs.Known.{Known, KnownWith};
ghost use Rattle.replay.specs.Reached.{made_of, changed_of};
ghost use Rattle.replay.specs.Run.{changed_by, changes, Ran, Outcome};

use calls::Answer;
use graph::Graph;
use refusals::Refusal;
use session::Session;

// The session handed back, whether the calls were made, and whether one of them was accepted: if not, no buffer has changed.
#[derive(Clone, Copy)]
pub struct Replayed {
    pub session: Session,
    pub ruling: Result<(), Refusal>,
    pub changed: bool,
}

// How far a run has come: the pairs made, and whether a call was accepted.
#[derive(Clone, Copy)]
struct Reached {
    made: usize,
    changed: bool,
}

// Returns true if answer accepts its call, else changed.
fn accepts(changed: bool, answer: Answer) -> bool
    ensures { result ≡ changed_by changed (answer_of answer) }
{
    changed || answer.is_ok()
}

// Makes the calls of a list, one for each answer, on a session that is known to be sound. Every call keeps it so, and the answers before i
// are those of the calls before i.
fn run(
    graph: Graph,
    start: usize,
    inverse: &mut [u16],
    sequence: &mut [u8],
    marks: &mut [u8],
    list: &[u64],
    answers: &mut [u64],
) -> Reached
    requires known_with { KnownWith graph.size start graph.adjacency.now graph.weights.now inverse.old sequence.old marks.old }
    requires answers_in_bounds { 3 * length answers.old ≤ length list.now }
    ensures { let n = graph.entry.size in
        let adjacency = graph.entry.adjacency.now in
        let weights = graph.entry.weights.now in
        ((kept : List ℕ)
        → Known n start adjacency weights inverse.old sequence.old kept marks.old
        → Ran (state n start adjacency weights inverse.old sequence.old kept)
        list.now answers.old (length answers.old)
        (state n result.made adjacency weights inverse.new sequence.new kept)
        answers.new result.changed) }
{
    let mut made = start;
    let mut changed = false;
    for (i, answer) in answers.iter_mut().enumerate() {
        let at = 3 * i;
        let call = call_list::call(list[at], list[at + 1] as usize, list[at + 2] as usize);
        let reply = calls::make(call, graph, made, inverse, sequence, marks);
        made = reply.made;
        changed = accepts(changed, reply.answer);
        *answer = calls::number(reply.answer, made);
    }
    Reached { made, changed }
}

// Makes the calls of a list, unless the session or the list is refused, and returns how far they have come.
fn attempt(
    session: Session,
    adjacency: &[u8],
    weights: &[u16],
    inverse: &mut [u16],
    sequence: &mut [u8],
    kept: &[u8],
    list: &[u64],
    answers: &mut [u64],
) -> Result<Reached, Refusal>
    ensures { let before = state session.size session.made
        adjacency.now weights.now inverse.old sequence.old kept.now in
        let after = state session.size (made_of session.made result)
        adjacency.now weights.now inverse.new sequence.new kept.now in
        Outcome before list.now answers.old (ruling_of result) after answers.new (changed_of result) }
{
    let n = session.size;
    let count = list.len() / 3;
    let mut marks = [0u8; 96];
    let graph = soundness::confirm_answers(
        n,
        session.made,
        adjacency,
        weights,
        inverse,
        sequence,
        kept,
        answers.len(),
        count,
        &mut marks,
    )?;
    call_list::judge(list)?;
    let reached = run(
        graph,
        session.made,
        inverse,
        sequence,
        &mut marks[..n],
        list,
        &mut answers[..count],
    );
    Ok(reached)
}

// Makes the calls of a list, unless the session or the list is refused.
pub fn replay(
    session: Session,
    adjacency: &[u8],
    weights: &[u16],
    inverse: &mut [u16],
    sequence: &mut [u8],
    kept: &[u8],
    list: &[u64],
    answers: &mut [u64],
) -> Replayed
    ensures run { let before = state session.size session.made
        adjacency.now weights.now inverse.old sequence.old kept.now in
        let after = state result.session.size result.session.made
        adjacency.now weights.now inverse.new sequence.new kept.now in
        Replays modulus_prime before list.now answers.old (ruling_of result.ruling) after answers.new }
    ensures demand { let before = state session.size session.made
        adjacency.now weights.now inverse.old sequence.old kept.now in
        let after = state result.session.size result.session.made
        adjacency.now weights.now inverse.new sequence.new kept.now in
        DemandThreeOf modulus_prime before list.now answers.old after answers.new }
    ensures changed { let before = state session.size session.made
        adjacency.now weights.now inverse.old sequence.old kept.now in
        ((returned : List Returned) → Runs modulus_prime before (calls_of list.now) returned
        → result.changed ≡ changes (ruling_of result.ruling) returned) }
{
    match attempt(
        session, adjacency, weights, inverse, sequence, kept, list, answers,
    ) {
        Ok(reached) => Replayed {
            session: Session {
                size: session.size,
                made: reached.made,
            },
            ruling: Ok(()),
            changed: reached.changed,
        },
        Err(refusal) => Replayed {
            session,
            ruling: Err(refusal),
            changed: false,
        },
    }
}
