// A script, and the board that it edits.
use std::alloc::{AllocError, Global};

/// A script, and the text of the board that it edits.
#[derive(Drop)]
pub struct Case {
    script: String,
    board: String,
    /// Whether the line between the two was read.
    parted: bool,
}

/// How many lines a line stands for, and what each says: `3 times drop t1` stands for three.
fn repeated(line: &str) -> (u32, &str) {
    let Some((count, repeated)) = line.split_once(" times ") else {
        return (1, line);
    };
    match count.parse::<u32>() {
        Ok(count) => (count, repeated),
        Err(_) => (1, line),
    }
}

/// Adds a line with its line feed.
fn add_line(text: &mut String, line: &str) -> Result<(), AllocError> {
    text.push_str(line)?;
    text.push_str("\n")
}

/// Adds the lines that a line of a script stands for.
fn add_script(script: &mut String, line: &str) -> Result<(), AllocError> {
    let (count, line) = repeated(line);
    'times: for _ in 0..count {
        add_line(script, line)?;
    }
    Ok(())
}

impl Case {
    /// Nothing is read yet.
    pub fn new(alloc: Global) -> Case {
        Case {
            script: String::new(alloc),
            board: String::new(alloc),
            parted: false,
        }
    }

    /// Takes a line in: the board stands behind the first line `--`.
    pub fn add(&mut self, line: &str) -> Result<(), AllocError> {
        if self.parted {
            add_line(&mut self.board, line)
        } else if line == "--" {
            self.parted = true;
            Ok(())
        } else {
            add_script(&mut self.script, line)
        }
    }

    /// The script. Its last line lacks its line feed.
    pub fn script(&self) -> &[u8] {
        let script = self.script.as_str();
        script.strip_suffix("\n").unwrap_or(script).as_bytes()
    }

    /// The text of the board.
    pub fn board(&self) -> &[u8] {
        self.board.as_bytes()
    }
}
