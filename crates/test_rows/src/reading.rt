//! A text of sections, each with its rows.

use std::alloc::{AllocError, Global};

/// A line of a section: a case, or a line of a block.
#[derive(Clone, Copy)]
pub struct Row<'a> {
    /// Which line of the whole text it is, from 1.
    pub number: usize,
    pub text: &'a str,
    /// Whether a block begins with it: no row is right before it.
    pub begins: bool,
}

/// The rows below a line `## NAME`.
#[derive(Drop)]
pub struct Section<'a> {
    pub name: &'a str,
    pub rows: Vec<Row<'a>>,
}

/// Whether a line is a comment for the reader.
fn is_comment(line: &str) -> bool {
    line == "--" || line.starts_with("-- ")
}

/// The sections of a text, without comments and empty lines. What precedes the first of them is for the reader.
pub fn sections<'a>(alloc: Global, text: &'a str) -> Result<Vec<Section<'a>>, AllocError> {
    let mut sections = Vec::new(alloc);
    let mut number = 0usize;
    let mut begins = true;
    for line in text.lines() {
        number = number.saturating_add(1);
        if let Some(name) = line.strip_prefix("## ") {
            let rows = Vec::new(alloc);
            sections.push(Section { name, rows })?;
            begins = true;
        } else if line.is_empty() || is_comment(line) {
            begins = true;
        } else {
            let row = Row {
                number,
                text: line,
                begins,
            };
            put_row(&mut sections, row)?;
            begins = false;
        }
    }
    Ok(sections)
}

/// Puts a row into the last of the sections.
fn put_row<'a>(sections: &mut Vec<Section<'a>>, row: Row<'a>) -> Result<(), AllocError> {
    if let Some(section) = sections.last_mut() {
        section.rows.push(row)?;
    }
    Ok(())
}

impl<'a> Section<'a> {
    /// The rows in blocks, which are parted by empty lines or comments.
    pub fn blocks(&self, alloc: Global) -> Result<Vec<Vec<Row<'a>>>, AllocError> {
        let mut blocks = Vec::new(alloc);
        for row in self.rows.as_slice() {
            if row.begins {
                blocks.push(Vec::new(alloc))?;
            }
            put_line(&mut blocks, *row)?;
        }
        Ok(blocks)
    }
}

/// Puts a row into the last of the blocks.
fn put_line<'a>(blocks: &mut Vec<Vec<Row<'a>>>, row: Row<'a>) -> Result<(), AllocError> {
    if let Some(block) = blocks.last_mut() {
        block.push(row)?;
    }
    Ok(())
}

/// What precedes the first ` => ` of a row and what follows it, without the blanks around them.
pub fn halves(row: &str) -> Option<(&str, &str)> {
    match row.split_once(" => ") {
        Some((front, back)) => Some((front.trim(), back.trim())),
        None => None,
    }
}
