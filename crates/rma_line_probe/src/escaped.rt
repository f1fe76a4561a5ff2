//! Bytes as a text in which a backslash stands before what is hard to see, as tables have them.
use rma_table::Failure;

/// Appends the text that stands for some bytes.
///
/// # Errors
///
/// `Memory` where there is none left.
pub fn push_escaped(text: &mut String, bytes: &[u8]) -> Result<(), Failure> {
    let Some((last, front)) = bytes.split_last() else {
        return Ok(());
    };
    for byte in front {
        push_byte(text, *byte)?;
    }
    match last {
        b' ' => Ok(text.push_str("\\s")?),
        _ => push_byte(text, *last),
    }
}

/// Appends what stands for a byte that is not the last.
fn push_byte(text: &mut String, byte: u8) -> Result<(), Failure> {
    match byte {
        b'\n' => text.push_str("\\n")?,
        b'\r' => text.push_str("\\r")?,
        b'\t' => text.push_str("\\t")?,
        b' '..=b'~' if byte != b'\\' => text.push(char::from(byte))?,
        _ => write!(text, "\\x{byte:02x}")?,
    }
    Ok(())
}
