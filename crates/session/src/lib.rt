// The session: the number of vertices and the number of pairs made, passed in and handed back by every call. Each call first confirms that
// the session is sound. It reads the graph's tables, the inverse, the sequence of pairs and the kept row; all but row also write the inverse
// and the sequence.
#![tactic(auto)]

ghost use Rattle.residue.specs.Modulus.{modulus_prime};
ghost use Rattle.matching.specs.Model.{pick, automatic, undo};
ghost use Rattle.matching.specs.Calls.{Handles, PickedExactly, ShowsRow};
ghost use Rattle.matching.specs.Session.{state};
ghost use Rattle.refusals.specs.Meaning.{ruling_of};
ghost use Rattle.calls.specs.Meaning.{call_is, answer_of};

use calls::{Answer, Call};
use refusals::Refusal;

// The number of vertices, and the number of pairs made.
#[derive(Clone, Copy)]
pub struct Session {
    pub size: usize,
    pub made: usize,
}

// The session handed back, and the answer: the pair appended or removed, or a refusal.
#[derive(Clone, Copy)]
pub struct Returned {
    pub session: Session,
    pub answer: Answer,
}

// The session handed back, which is the one passed in, and whether the row was written.
#[derive(Clone, Copy)]
pub struct Shown {
    pub session: Session,
    pub ruling: Result<(), Refusal>,
}

impl Session {
    // Makes a call, if the session is sound.
    pub fn call(
        self,
        call: Call,
        adjacency: &[u8],
        weights: &[u16],
        inverse: &mut [u16],
        sequence: &mut [u8],
        kept: &[u8],
    ) -> Returned
        ensures { let before = state self.size self.made
            adjacency.now weights.now inverse.old sequence.old kept.now in
            let after = state result.session.size result.session.made
            adjacency.now weights.now inverse.new sequence.new kept.now in
            Handles modulus_prime before (call_is call) (answer_of result.answer) after }
    {
        let mut marks = [0u8; 96];
        match soundness::confirm(
            self.size, self.made, adjacency, weights, inverse, sequence, kept, &mut marks,
        ) {
            Ok(graph) => {
                let reply = calls::make(
                    call,
                    graph,
                    self.made,
                    inverse,
                    sequence,
                    &mut marks[..self.size],
                );
                Returned {
                    session: Session {
                        size: self.size,
                        made: reply.made,
                    },
                    answer: reply.answer,
                }
            }
            Err(refusal) => Returned {
                session: self,
                answer: Err(refusal),
            },
        }
    }

    // Picks a and b.
    pub fn pick(
        self,
        adjacency: &[u8],
        weights: &[u16],
        inverse: &mut [u16],
        sequence: &mut [u8],
        kept: &[u8],
        a: usize,
        b: usize,
    ) -> Returned
        ensures handled { let before = state self.size self.made
            adjacency.now weights.now inverse.old sequence.old kept.now in
            let after = state result.session.size result.session.made
            adjacency.now weights.now inverse.new sequence.new kept.now in
            Handles modulus_prime before (pick a b) (answer_of result.answer) after }
        ensures exactly { let before = state self.size self.made
            adjacency.now weights.now inverse.old sequence.old kept.now in
            PickedExactly modulus_prime before a b (answer_of result.answer) }
    {
        self.call(
            Call::Pick(a, b),
            adjacency,
            weights,
            inverse,
            sequence,
            kept,
        )
    }

    // Picks the lowest unmatched vertex and its lowest partner.
    pub fn automatic(
        self,
        adjacency: &[u8],
        weights: &[u16],
        inverse: &mut [u16],
        sequence: &mut [u8],
        kept: &[u8],
    ) -> Returned
        ensures { let before = state self.size self.made
            adjacency.now weights.now inverse.old sequence.old kept.now in
            let after = state result.session.size result.session.made
            adjacency.now weights.now inverse.new sequence.new kept.now in
            Handles modulus_prime before automatic (answer_of result.answer) after }
    {
        self.call(Call::Automatic, adjacency, weights, inverse, sequence, kept)
    }

    // Removes the newest pair.
    pub fn undo(
        self,
        adjacency: &[u8],
        weights: &[u16],
        inverse: &mut [u16],
        sequence: &mut [u8],
        kept: &[u8],
    ) -> Returned
        ensures { let before = state self.size self.made
            adjacency.now weights.now inverse.old sequence.old kept.now in
            let after = state result.session.size result.session.made
            adjacency.now weights.now inverse.new sequence.new kept.now in
            Handles modulus_prime before undo (answer_of result.answer) after }
    {
        self.call(Call::Undo, adjacency, weights, inverse, sequence, kept)
    }

    // Sets row[b], for each vertex b, to 1 if a pick of a and b would be accepted, else to 0.
    pub fn row(
        self,
        adjacency: &[u8],
        weights: &[u16],
        inverse: &[u16],
        sequence: &[u8],
        kept: &[u8],
        a: usize,
        row: &mut [u8],
    ) -> Shown
        ensures { let before = state self.size self.made
            adjacency.now weights.now inverse.now sequence.now kept.now in
            let after = state result.session.size result.session.made
            adjacency.now weights.now inverse.now sequence.now kept.now in
            ShowsRow modulus_prime before a row.old (ruling_of result.ruling) after row.new }
    {
        Shown {
            session: self,
            ruling: self.show(adjacency, weights, inverse, sequence, kept, a, row),
        }
    }

    // Writes the row of a, if the session is sound.
    fn show(
        self,
        adjacency: &[u8],
        weights: &[u16],
        inverse: &[u16],
        sequence: &[u8],
        kept: &[u8],
        a: usize,
        row: &mut [u8],
    ) -> Result<(), Refusal>
        ensures { let session = state self.size self.made
            adjacency.now weights.now inverse.now sequence.now kept.now in
            ShowsRow modulus_prime session a row.old (ruling_of result) session row.new }
    {
        let n = self.size;
        let mut marks = [0u8; 96];
        soundness::confirm_row(
            n,
            self.made,
            adjacency,
            weights,
            inverse,
            sequence,
            kept,
            row.len(),
            &mut marks,
        )?;
        partners::row(n, adjacency, inverse, &marks[..n], a, &mut row[..n])
    }
}
