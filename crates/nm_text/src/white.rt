// White space (XML 1.0, section 2.3).
ghost use Rattle.nm_text.specs.White as spec;
ghost use Rattle.std.specs.Prelude.{◌≡◌};

/// Whether the byte is a space, a tab, LF or CR.
pub fn is_white(byte: u8) -> bool
    ensures { result ≡ spec.is_white byte }
{
    matches!(byte, b' ' | b'\t' | b'\n' | b'\r')
}

/// Whether all bytes are white space. A text without bytes is.
pub fn is_white_text(bytes: &[u8]) -> bool
    ensures { result ≡ spec.is_white_text bytes.now }
{
    bytes.iter().all(|byte| is_white(*byte))
}
