// Automatic picks to the end, on a session fresh from opening.
#![tactic(auto)]

ghost use Rattle.std.specs.Prelude.{List, ℕ};
ghost use Rattle.matching.specs.Session.{state};
ghost use Rattle.calls.specs.Known.{Known, KnownFor};
ghost use Rattle.completion.specs.Completed.{CompletedFrom};

// Makes automatic picks until one is refused, and returns how many were accepted.
pub fn complete(
    n: usize,
    adjacency: &[u8],
    inverse: &mut [u16],
    sequence: &mut [u8],
    marks: &mut [u8],
) -> usize
    requires { KnownFor n 0 adjacency.now inverse.old sequence.old marks.old }
    ensures { (weights kept : List ℕ)
        → Known n 0 adjacency.now weights inverse.old sequence.old kept marks.old
        → CompletedFrom (state n 0 adjacency.now weights inverse.old sequence.old kept) result
        sequence.new }
{
    let mut made = 0;
    // made picks were accepted so far; each matches two more vertices, so the loop ends.
    loop {
        let reply = calls::automatic(n, made, adjacency, inverse, sequence, marks);
        match reply.answer {
            Ok(_) => made = reply.made,
            Err(_) => return made,
        }
    }
}
