// What a list of a text says of what stands in it, and of the words, strings and numbers behind its head.
use crate::spelling::{bytes_of, spelled};
use board_text::Part;
use grid_num::{Memory, NumFault};
use std::alloc::Global;

/// An answer; None where the line asks for something else.
type Answer = Result<Option<String>, Memory>;

/// The list that a word names: the first list with this head, or with `#1` the list number 1, from 0.
fn list_of<'a>(alloc: Global, part: &Part<'a>, word: &str) -> Result<Option<Part<'a>>, Memory> {
    let Some(number) = word.strip_prefix('#') else {
        return Ok(part.list(word.as_bytes()));
    };
    let mut lists = part.lists(alloc)?;
    match number.parse::<usize>() {
        Ok(number) if number < lists.len() => Ok(Some(lists.swap_remove(number))),
        _ => Ok(None),
    }
}

/// The list that a line `at` names, from the root on.
pub fn part_at<'a>(alloc: Global, root: Part<'a>, path: &str) -> Result<Option<Part<'a>>, Memory> {
    let mut part = root;
    'words: for word in path.split_whitespace() {
        match list_of(alloc, &part, word)? {
            Some(list) => part = list,
            None => return Ok(None),
        }
    }
    Ok(Some(part))
}

/// Says yes or no.
pub fn yes_or_no(alloc: Global, yes: bool) -> Answer {
    Ok(Some(format!(in alloc; "{}", if yes { "yes" } else { "no" })?))
}

/// Says a fault, or that there is none.
pub fn fault_line(alloc: Global, fault: Option<NumFault>) -> Answer {
    match fault {
        Some(fault) => Ok(Some(format!(in alloc; "{fault:?}")?)),
        None => Ok(Some(format!(in alloc; "none")?)),
    }
}

/// What a list answers of the lists in it.
fn of_lists(alloc: Global, part: &Part<'_>, command: &str, name: &[u8]) -> Answer {
    match command {
        "headed" => yes_or_no(alloc, part.is_headed(name)),
        "begins" => yes_or_no(alloc, part.begins(name)),
        "has" => yes_or_no(alloc, part.has(name)),
        "length" => Ok(Some(format!(in alloc; "{}", part.len())?)),
        "lists" => Ok(Some(format!(in alloc; "{}", part.lists(alloc)?.len())?)),
        "length-in" => Ok(Some(format!(in alloc; "{}", part.length_in(alloc, name)?)?)),
        "whole-in" => Ok(Some(format!(in alloc; "{}", part.whole_in(alloc, name)?)?)),
        _ => Ok(None),
    }
}

/// Says the first length of the first list with the second head in the first list with the first head.
fn first_length(alloc: Global, part: &Part<'_>, rest: &str) -> Answer {
    let Some((outer, name)) = rest.split_once(' ') else {
        return Ok(None);
    };
    match part.list_in(outer.as_bytes(), name.as_bytes()) {
        Some(list) => Ok(Some(format!(in alloc; "{}", list.length_at(alloc, 0)?)?)),
        None => Ok(Some(format!(in alloc; "none")?)),
    }
}

/// Says a content between bars, or that there is none.
fn content_line(alloc: Global, content: Option<Vec<u8>>) -> Answer {
    match content {
        Some(content) => Ok(Some(format!(in alloc; "|{}|", spelled(alloc, &content)?)?)),
        None => Ok(Some(format!(in alloc; "none")?)),
    }
}

/// Says the contents of all words and strings behind the head, each between bars.
fn contents_line(alloc: Global, part: &Part<'_>) -> Answer {
    let mut line = format!(in alloc; "|")?;
    'texts: for text in &part.texts(alloc)? {
        line.push_str(spelled(alloc, text)?.as_str())?;
        line.push_str("|")?;
    }
    Ok(Some(line))
}

/// Says whether a text stands at a place behind the head.
fn says_at(alloc: Global, part: &Part<'_>, rest: &str) -> Answer {
    let Some((place, text)) = rest.split_once(' ') else {
        return Ok(None);
    };
    match place.parse::<usize>() {
        Ok(place) => {
            let text = bytes_of(alloc, text)?;
            yes_or_no(alloc, part.says_at(alloc, place, &text)?)
        }
        Err(_) => Ok(None),
    }
}

/// What a list answers of the words and strings behind its head.
fn of_texts(alloc: Global, part: &Part<'_>, command: &str, rest: &str) -> Answer {
    match command {
        "content" => content_line(alloc, part.text(alloc)?),
        "contents" => contents_line(alloc, part),
        "says" => {
            let text = bytes_of(alloc, rest)?;
            yes_or_no(alloc, part.says(alloc, &text)?)
        }
        "says-at" => says_at(alloc, part, rest),
        "first-length" => first_length(alloc, part, rest),
        _ => Ok(None),
    }
}

/// Says the point behind the head, in nanometres, and what is wrong with it.
fn point_line(alloc: Global, part: &Part<'_>) -> Answer {
    let point = part.point(alloc)?;
    Ok(Some(match part.point_fault(alloc)? {
        Some(fault) => format!(in alloc; "{} {}, {fault:?}", point.x, point.y)?,
        None => format!(in alloc; "{} {}", point.x, point.y)?,
    }))
}

/// What is behind the head at a place: a list, a word or a string.
fn kind_line(alloc: Global, part: &Part<'_>, place: usize) -> Answer {
    match part.behind(place) {
        Some(item) => Ok(Some(format!(in alloc; "{:?}", item.kind())?)),
        None => Ok(Some(format!(in alloc; "none")?)),
    }
}

/// What a list answers of a place behind its head, or of a number of items there.
fn of_places(alloc: Global, part: &Part<'_>, command: &str, place: usize) -> Answer {
    match command {
        "behind" => kind_line(alloc, part, place),
        "content-at" => content_line(alloc, part.text_at(alloc, place)?),
        "is-short" => yes_or_no(alloc, part.is_short(place)),
        "length-at" => Ok(Some(format!(in alloc; "{}", part.length_at(alloc, place)?)?)),
        "whole-at" => Ok(Some(format!(in alloc; "{}", part.whole_at(alloc, place)?)?)),
        "length-fault" => fault_line(alloc, part.length_fault_at(alloc, place)?),
        "whole-fault" => fault_line(alloc, part.whole_fault_at(alloc, place)?),
        _ => Ok(None),
    }
}

/// Says what an item is, and where it stands.
fn span_line(alloc: Global, part: &Part<'_>) -> Answer {
    let span = part.span();
    Ok(Some(format!(in alloc; "{:?} {} to {}", part.kind(), span.from, span.to)?))
}

/// What a list answers; None where the line asks for nothing that it knows.
pub fn answer(alloc: Global, part: &Part<'_>, command: &str, rest: &str) -> Answer {
    match command {
        "at" => return span_line(alloc, part),
        "point" => return point_line(alloc, part),
        _ => {}
    }
    let name = bytes_of(alloc, rest)?;
    if let Some(answer) = of_lists(alloc, part, command, &name)? {
        return Ok(Some(answer));
    }
    match rest.parse::<usize>() {
        Ok(place) => of_places(alloc, part, command, place),
        Err(_) => of_texts(alloc, part, command, rest),
    }
}
