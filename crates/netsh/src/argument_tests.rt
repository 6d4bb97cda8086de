//! The words of command lines of which a word may be no UTF-8.
use net_model::words_after_path;
use std::alloc::{AllocError, Global};
use std::env::{Env, FillError};
use std::test::Fail;

/// A command line whose words, its path first, are a byte so many times each.
#[derive(Drop)]
struct Line {
    words: &'static [(u8, usize)],
}

impl Env for Line {
    fn arg(&self, i: usize, buf: &mut [u8]) -> Result<usize, FillError> {
        let Some((byte, count)) = self.words.get(i) else {
            return Err(FillError::NotPresent);
        };
        if *count > buf.len() {
            return Err(FillError::TooLong);
        }
        buf[..*count].fill(*byte);
        Ok(*count)
    }

    fn var(&self, _name: &str, _buf: &mut [u8]) -> Result<usize, FillError> {
        Err(FillError::NotPresent)
    }

    fn var_at(&self, _i: usize, _buf: &mut [u8]) -> Result<usize, FillError> {
        Err(FillError::NotPresent)
    }
}

/// A command line, and the lengths of the words that are read.
type Row = (&'static [(u8, usize)], &'static [usize]);

const LINES: &[Row] = &[
    (&[(0xff, 5), (b'r', 3), (b'1', 1)], &[3, 1]),
    (&[(b'n', 5), (b'r', 3), (0xff, 1)], &[]),
    (
        &[(b'n', 5), (b'x', 256), (b'y', 257), (b'z', 5000)],
        &[256, 257, 5000],
    ),
    (&[(b'n', 5), (b'q', 5), (b'a', 0)], &[5, 0]),
    (&[(b'n', 5)], &[]),
    (&[], &[]),
];

fn are_so_long(words: &[String], lengths: &[usize]) -> bool {
    words.len() == lengths.len()
        && words
            .iter()
            .zip(lengths)
            .all(|(word, len)| word.len() == *len)
}

fn is_read(alloc: Global, row: Row) -> Result<bool, AllocError> {
    let (words, lengths) = row;
    let read = words_after_path(&Line { words }, alloc)?;
    Ok(are_so_long(&read, lengths))
}

#[test]
fn the_path_is_no_word(rt: HostRuntime) -> Result<(), Fail> {
    for (i, row) in LINES.iter().enumerate() {
        let read = is_read(rt.alloc(), *row)?;
        assert!(rt; read, "row {i}");
    }
    Ok(())
}
