// The layout that a call goes on with, as Rust's own: align_layout makes one of a request that 6 lets through.
ghost use Rattle.layout.specs.Asked.{Asked};

// A size of at least 16 bytes and an alignment that is a power of two, together at most 2^63. The size that
// align_layout gives is rounded.
#[derive(Clone, Copy)]
pub struct Layout {
    pub size: u64,
    pub align: u64,
    ghost asked: { Asked size align },
}
