// What is kept of a board while it is read: which thing has a stamp, and which nets are declared.
use crate::parts::yes_or_no;
use crate::spelling::bytes_of;
use board_items::{Numbers, Stamps};
use board_text::Stamped;
use grid_num::Memory;
use std::alloc::Global;

/// An answer; None where the line asks for something else.
type Answer = Result<Option<String>, Memory>;

/// The stamps and the nets so far.
#[derive(Drop)]
pub struct Kept {
    stamps: Stamps,
    nets: Numbers,
}

/// The thing that a word and its number name.
fn thing_of(word: &str, number: &str) -> Option<Stamped> {
    let number = number.parse::<u32>().ok()?;
    match word {
        "track" => Some(Stamped::Track(number)),
        "via" => Some(Stamped::Via(number)),
        "zone" => Some(Stamped::Zone(number)),
        "other" => Some(Stamped::Other),
        _ => None,
    }
}

impl Kept {
    /// Nothing is kept yet.
    pub fn new(alloc: Global) -> Kept {
        Kept {
            stamps: Stamps::new(alloc),
            nets: Numbers::new(alloc),
        }
    }

    /// Puts a stamp of a thing: the thing's kind, its number, and the stamp behind them.
    fn put_stamp(&mut self, alloc: Global, rest: &str) -> Answer {
        let Some((word, rest)) = rest.split_once(' ') else {
            return Ok(None);
        };
        let (number, stamp) = rest.split_once(' ').unwrap_or((rest, ""));
        let Some(thing) = thing_of(word, number) else {
            return Ok(None);
        };
        self.stamps.put(bytes_of(alloc, stamp)?, thing)?;
        Ok(Some(String::new(alloc)))
    }

    /// Says whether a stamp is there, and which thing has it.
    fn find_stamp(&self, alloc: Global, rest: &str) -> Answer {
        let stamp = bytes_of(alloc, rest)?;
        let there = if self.stamps.has(&stamp) { "yes" } else { "no" };
        let thing = self.stamps.find(&stamp);
        Ok(Some(format!(in alloc; "{there}, {thing:?}")?))
    }

    /// Puts so many nets: 0, the step, twice the step and so on.
    fn put_nets(&mut self, alloc: Global, count: u32, step: u32) -> Answer {
        'each: for number in 0..count {
            self.nets.push(step.wrapping_mul(number))?;
        }
        Ok(Some(String::new(alloc)))
    }

    /// Says how many of so many numbers are nets: the first, and from each to the next a step.
    fn count_nets(&self, alloc: Global, count: u32, step: u32, first: u32) -> Answer {
        let there = (0..count)
            .filter(|number| self
                .nets
                .has(step.wrapping_mul(*number).wrapping_add(first)))
            .count();
        Ok(Some(format!(in alloc; "{there} of {count}")?))
    }

    /// Says the net at a place.
    fn net_at(&self, alloc: Global, place: usize) -> Answer {
        match self.nets.numbers().get(place) {
            Some(net) => Ok(Some(format!(in alloc; "{net}")?)),
            None => Ok(Some(format!(in alloc; "none")?)),
        }
    }

    /// What a line about nets answers, with the numbers that it has.
    fn of_nets(&mut self, alloc: Global, command: &str, numbers: &[u32]) -> Answer {
        match (command, numbers) {
            ("nets", [count, step]) => self.put_nets(alloc, *count, *step),
            ("net", [net]) => {
                self.nets.push(*net)?;
                Ok(Some(String::new(alloc)))
            }
            ("net-at", [place]) => self.net_at(alloc, *place as usize),
            ("is-net", [net]) => yes_or_no(alloc, self.nets.has(*net)),
            ("count-nets", [count, step, first]) => self.count_nets(alloc, *count, *step, *first),
            ("all-nets", []) => Ok(Some(format!(in alloc; "{}", self.nets.numbers().len())?)),
            _ => Ok(None),
        }
    }

    /// What a line about what is kept answers; None where it is about something else.
    pub fn answer(&mut self, alloc: Global, command: &str, rest: &str) -> Answer {
        match command {
            "stamp" => self.put_stamp(alloc, rest),
            "find" => self.find_stamp(alloc, rest),
            _ => {
                let numbers = rest
                    .split_whitespace()
                    .filter_map(|word| word.parse::<u32>().ok());
                let numbers: Vec<u32> = numbers.collect(alloc)?;
                self.of_nets(alloc, command, &numbers)
            }
        }
    }
}
