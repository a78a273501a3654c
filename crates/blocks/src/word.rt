// One word of 16 bits among bytes, low byte first.
ghost use Rattle.std.specs.Prelude.{◌+◌, ◌<◌, length};
ghost use Rattle.blocks.specs.Promises.{WordAtMeets};

// The word at byte `at`.
pub fn word_at(s: &[u8], at: usize) -> u16
    requires { at + 1 < length s.now }
    ensures { WordAtMeets s.now at result }
{
    u16::from_le_bytes([s[at], s[at + 1]])
}
