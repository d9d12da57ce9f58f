use km_ports::{Status, SureSource, VecSink};
use std::alloc::{AllocError, Global};
use workbench::workbench;

/// The words of a command line, parted by blanks.
pub fn words_of(alloc: Global, line: &str) -> Result<Vec<String>, AllocError> {
    let mut words = Vec::new(alloc);
    for word in line.split(' ') {
        words.push(String::from_str(alloc, word)?)?;
    }
    Ok(words)
}

/// What the command answers and writes for this input, over a source and a sink that never fail.
pub fn answer(alloc: Global, line: &str, input: &[u8]) -> Result<(Status, String), AllocError> {
    let words = words_of(alloc, line)?;
    let mut source = SureSource::new(Vec::from_slice(alloc, input)?);
    let mut sink = VecSink::new(alloc);
    let status = workbench(alloc, words.as_slice(), &mut source, &mut sink);
    let text = String::from_utf8_lossy(alloc, sink.written())?;
    Ok((status, text))
}

/// Puts the piece so often at the end of the text.
pub fn repeated(text: &mut String, piece: &str, count: usize) -> Result<(), AllocError> {
    for _ in 0..count {
        text.push_str(piece)?;
    }
    Ok(())
}
