// How many terms and links a catalogue has, and where the cells of its tables lie.
ghost use Rattle.std.specs.Prelude.{◌≡◌, ◌+◌, ◌*◌, ◌<◌, ◌≤◌};

// n terms and k links, within their limits.
#[derive(Clone, Copy, Debug)]
pub(crate) struct Size {
    pub(crate) n: usize,
    pub(crate) k: usize,
    ghost limits: { (2 ≤ n) × (n ≤ 256) × (k ≤ 32) },
}

impl Size {
    // The place of the pair cell of x and y. The tables have different shapes, so each has a function for its places.
    pub(crate) fn pair_place(self, x: usize, y: usize) -> usize
        requires { (x < self.n) × (y < self.n) }
        ensures place { result ≡ x * self.n + y }
        ensures below { result < self.n * self.n }
    {
        x * self.n + y
    }

    // The place of the link cell of x, r and y.
    pub(crate) fn link_place(self, x: usize, r: usize, y: usize) -> usize
        requires { (x < self.n) × (r < self.k) × (y < self.n) }
        ensures place { result ≡ (r * self.n + x) * self.n + y }
        ensures below { result < self.k * self.n * self.n }
    {
        (r * self.n + x) * self.n + y
    }
}
