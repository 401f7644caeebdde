// A chapter, as a line of the input tells it.
use crate::digits::bytes_of;
use image::Settings;
use std::alloc::{AllocError, Global};
use std::str::SplitWhitespace;

#[derive(Clone, Copy)]
pub enum ChapterKind {
    Paragraphs,
    IndexMarks,
}

// 1 is paragraphs, and any other number index marks, by its lowest byte.
impl From<u32> for ChapterKind {
    fn from(number: u32) -> ChapterKind {
        match number % 256 {
            1 => ChapterKind::Paragraphs,
            _ => ChapterKind::IndexMarks,
        }
    }
}

#[derive(Drop)]
pub struct Chapter {
    pub kind: ChapterKind,
    pub number: u32,
    pub settings: Settings,
    pub messages: Vec<u8>,
    // How many words there were, so that a message of another width still counts as one.
    pub count: usize,
}

// The number of the next word, or none at the end of the line; a word that is no number counts as 0.
fn next_number(words: &mut SplitWhitespace<'_>) -> Option<u32> {
    let word = words.next()?;
    Some(word.parse::<u32>().unwrap_or(0))
}

fn next_size(words: &mut SplitWhitespace<'_>) -> Option<usize> {
    Some(next_number(words)? as usize)
}

impl Chapter {
    // The chapter of the five numbers that a line begins with, with no messages; or none if a number is missing.
    fn of_numbers(heap: Global, words: &mut SplitWhitespace<'_>) -> Option<Chapter> {
        Some(Chapter {
            kind: ChapterKind::from(next_number(words)?),
            number: next_number(words)?,
            settings: Settings {
                alpha: next_size(words)?,
                rho: next_size(words)?,
                capacity: next_size(words)?,
            },
            messages: Vec::new(heap),
            count: 0,
        })
    }

    // The chapter of a line, or none if a number is missing.
    pub(crate) fn of_line(heap: Global, line: &str) -> Result<Option<Chapter>, AllocError> {
        let mut words = line.split_whitespace();
        let Some(mut chapter) = Chapter::of_numbers(heap, &mut words) else {
            return Ok(None);
        };
        for word in words {
            let message = bytes_of(heap, word)?;
            chapter.messages.extend_from_slice(message.as_slice())?;
            chapter.count = chapter.count.wrapping_add(1);
        }
        Ok(Some(chapter))
    }
}
