// Lines of words and numbers on standard output.
use std::io;

pub(crate) fn word(rt: &impl Print, text: &str) -> io::Result<()> {
    rt.print(text)
}

pub(crate) fn line(rt: &impl Print, text: &str) -> io::Result<()> {
    rt.println(text)
}

// A space and a number.
pub(crate) fn number(rt: &impl Print, n: u64) -> io::Result<()> {
    print!(rt; " {n}")
}

// Bytes in hexadecimal.
pub(crate) fn hex(rt: &impl Print, bytes: &[u8]) -> io::Result<()> {
    for byte in bytes {
        print!(rt; "{byte:02x}")?;
    }
    Ok(())
}
