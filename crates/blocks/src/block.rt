// A block of 512 bytes, and its sizes.
ghost use Rattle.std.specs.Prelude.{◌≡◌};
ghost use Rattle.blocks.specs.Fields.{block_len};

// A block is lent bytes; this names its sizes, and has no values.
#[derive(Drop)]
pub enum Block {}

impl Block {
    // Bytes of a block.
    pub const LEN: usize = 512;
    // The largest number of 16 bits.
    pub const MAX16: u64 = u16::MAX as u64;

    // The length that the code names is that of specs/Fields.antt.
    pub fn len() -> usize
        ensures { result ≡ block_len }
    {
        Block::LEN
    }
}
