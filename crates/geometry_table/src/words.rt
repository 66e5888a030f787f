// The numbers of a line.
use grid_num::Point;
use std::alloc::{AllocError, Global};

// What stands for a bound that is free.
const FREE: i32 = 1_000_000_000;

// A bound; a star is a free one.
fn bound(word: &str, free: i32) -> Option<i32> {
    if word == "*" {
        return Some(free);
    }
    word.parse::<i32>().ok()
}

/// The bounds of an octagon.
pub fn bounds(words: &[&str]) -> Option<[i32; 8]> {
    let [a, b, c, d, e, f, g, h] = *words else {
        return None;
    };
    Some([
        bound(a, -FREE)?,
        bound(b, FREE)?,
        bound(c, -FREE)?,
        bound(d, FREE)?,
        bound(e, -FREE)?,
        bound(f, FREE)?,
        bound(g, -FREE)?,
        bound(h, FREE)?,
    ])
}

/// A number, 0 where the word is none.
pub fn number(word: &str) -> i64 {
    word.parse::<i64>().unwrap_or(0)
}

/// The corners, two numbers each.
pub fn corners(alloc: Global, words: &[&str]) -> Result<Vec<Point>, AllocError> {
    let mut corners = Vec::new(alloc);
    for pair in words.chunks(2) {
        if let [x, y] = *pair {
            corners.push(Point {
                x: number(x),
                y: number(y),
            })?;
        }
    }
    Ok(corners)
}
