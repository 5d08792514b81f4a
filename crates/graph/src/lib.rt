// A graph as the algebra takes it: its tables are long enough for its vertices, of which there are at most 96.
#![tactic(auto)]

ghost use Rattle.std.specs.Prelude.{ℕ, ◌<◌, ◌^◌, slice_index};
ghost use Rattle.graph.specs.Complete.{Complete};

// The number of vertices; a byte for each two vertices in order, 1 if they are adjacent; and a weight for each two vertices.
#[derive(Clone, Copy)]
pub struct Graph<'a> {
    pub size: usize,
    pub adjacency: &'a [u8],
    pub weights: &'a [u16],
    pub ghost complete: { Complete size adjacency.now weights.now },
    pub ghost words: { (x : ℕ) → slice_index weights.now x < 2 ^ 16 },
}

impl Graph<'_> {
    ghost use Rattle.std.specs.Prelude.{◌≡◌, ◌<◌};
    ghost use Rattle.graph.specs.Meaning.{graph_is};
    ghost use Rattle.matching.specs.Graph.{upper};

    // Returns the weight of i < j if they are adjacent, else 0.
    pub fn upper(self, i: usize, j: usize) -> u16
        requires { (i < j) × (j < self.size) }
        ensures { result ≡ upper (graph_is self.entry) i j }
    {
        let n = self.size;
        if self.adjacency[i * n + j] == 1 {
            self.weights[i * (2 * n - i - 1) / 2 + (j - i - 1)]
        } else {
            0
        }
    }
}
