// Bytes of a block that are zero.
ghost use Rattle.std.specs.Prelude.{◌≡◌, length};
ghost use Rattle.blocks.specs.Fields.{ZeroBytes};
ghost use Rattle.instance.specs.Tests.{Decides};

// Whether the bytes from a place up to the end are zero.
pub fn zero_from(block: &[u8], from: usize) -> bool
    ensures { Decides result (ZeroBytes block.now from (length block.now)) }
{
    block.iter().skip(from).all(|byte| *byte == 0)
}
