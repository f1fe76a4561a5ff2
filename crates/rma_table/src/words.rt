//! The words of the command line.
use crate::failure::Failure;
use std::{env, fs};

/// The words behind the name of the program.
///
/// # Errors
///
/// `Usage` where one is not UTF-8, and `Memory` where there is none left.
pub fn words_given(rt: HostRuntime) -> Result<Vec<String>, Failure> {
    let Ok(all) = env::args(&rt) else {
        return Err(Failure::Usage);
    };
    let mut words = Vec::new(rt.alloc());
    for word in all.skip(1) {
        words.push(word)?;
    }
    Ok(words)
}

/// The texts of the files of these names.
///
/// # Errors
///
/// `Unread` where there is no such file, and `Memory` where there is none left.
pub fn texts_of(rt: HostRuntime, names: &[String]) -> Result<Vec<String>, Failure> {
    let mut texts = Vec::new(rt.alloc());
    for name in names {
        let Ok(text) = fs::read_to_string(&rt, name.as_str()) else {
            return Err(Failure::Unread);
        };
        texts.push(text)?;
    }
    Ok(texts)
}
