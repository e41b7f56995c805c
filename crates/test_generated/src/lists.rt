//! Lists of what happens to the transactions on the bus.
use crate::example::Example;
use crate::numbers::Numbers;
use anyhow::Result;
use std::alloc::{AllocError, Global};
use usb_bus::Fate;
use usb_tool::read_fates;

const FATES: [Fate; 5] = [
    Fate::Pass,
    Fate::Busy,
    Fate::LostDown,
    Fate::LostUp,
    Fate::LostAck,
];

/// How many lists of up to six fates there are, by their length.
const COUNTS: [usize; 7] = [1, 5, 25, 125, 625, 3_125, 15_625];

/// How many long lists there are.
const LONG: usize = 5_000;

/// At this many places, of the first transactions, something is lost or busy.
const PLACES: usize = 24;

/// How many losses of one transaction there are: of three kinds at each of the places.
const LOSSES: usize = 3 * PLACES;

/// How many transactions in a row are busy: as many as are retried.
const BUSY: usize = 16;

/// How many lists an example gives at most.
const GIVEN: usize = 64;

/// Of this many fates one passes, in the list that is longer than 100,000.
const FAR: usize = 40_001;

/// Lists of fates.
#[derive(Clone, Copy)]
pub(crate) enum Lists {
    /// Every list of this many fates.
    Every(usize),
    /// Lists of 7 to 64 fates. In one list one in this many is no Pass, from each to one in 16.
    Long,
    /// One loss, and two, at the first places.
    Losses,
    /// Sixteen NAKs in a row from each of the first places on.
    Busy,
    /// One list, in which three pass and after each the device is busy 40,000 times.
    Far,
    /// Lists whose letters the example gives, parted by commas.
    Given,
}

impl Lists {
    /// The lists of this word.
    pub(crate) fn of(word: &str) -> Option<Lists> {
        match word {
            "five" => Some(Lists::Every(5)),
            "six" => Some(Lists::Every(6)),
            "long" => Some(Lists::Long),
            "losses" => Some(Lists::Losses),
            "busy" => Some(Lists::Busy),
            "far" => Some(Lists::Far),
            "given" => Some(Lists::Given),
            _ => None,
        }
    }

    /// How many numbers there are for lists.
    pub(crate) fn count(self) -> usize {
        match self {
            Lists::Every(length) => COUNTS.get(length).copied().unwrap_or(0),
            Lists::Long => LONG,
            Lists::Losses => LOSSES * LOSSES,
            Lists::Busy => PLACES,
            Lists::Far => 1,
            Lists::Given => GIVEN,
        }
    }

    /// The list of this number, if it has one.
    pub(crate) fn list(
        self,
        example: &Example,
        number: usize,
        numbers: &mut Numbers,
    ) -> Result<Option<Vec<Fate>>> {
        match self {
            Lists::Long => Ok(Some(long(example.alloc, numbers)?)),
            Lists::Given => match example.more.split(',').nth(number) {
                Some(letters) => Ok(Some(read_fates(example.alloc, letters)?)),
                None => Ok(None),
            },
            // Two losses, of which the first comes before the second, or one that is both.
            Lists::Losses
                if number / LOSSES != number % LOSSES
                    && number / LOSSES / 3 >= number % LOSSES / 3 => { Ok(None) }
            _ => Ok(Some(self.numbered(example.alloc, number)?)),
        }
    }

    /// The list that its number alone says.
    fn numbered(self, alloc: Global, number: usize) -> Result<Vec<Fate>, AllocError> {
        let length = match self {
            Lists::Every(length) => length,
            Lists::Losses => PLACES,
            Lists::Busy => number.saturating_add(BUSY),
            _ => 3 * FAR,
        };
        let mut fates = Vec::new(alloc);
        for place in 0..length {
            fates.push(self.fate(number, place))?;
        }
        Ok(fates)
    }

    /// The fate at a place of it.
    fn fate(self, number: usize, place: usize) -> Fate {
        match self {
            Lists::Every(_) => {
                let count = COUNTS.get(place).copied().unwrap_or(1);
                FATES[number.checked_div(count).unwrap_or(0) % 5]
            }
            Lists::Losses => loss_at(number, place),
            Lists::Busy if place < number => Fate::Pass,
            Lists::Far if place % FAR == 0 => Fate::Pass,
            _ => Fate::Busy,
        }
    }
}

/// What happens at a place in a list of two losses.
fn loss_at(number: usize, place: usize) -> Fate {
    let (first, second) = (number / LOSSES, number % LOSSES);
    if place == first / 3 {
        FATES[2 + first % 3]
    } else if place == second / 3 {
        FATES[2 + second % 3]
    } else {
        Fate::Pass
    }
}

fn long(alloc: Global, numbers: &mut Numbers) -> Result<Vec<Fate>, AllocError> {
    let length = numbers.below(58).saturating_add(7);
    let times = numbers.below(16).saturating_add(1);
    let mut fates = Vec::new(alloc);
    for _ in 0..length {
        fates.push(match numbers.below(times.max(1)) {
            0 => FATES[1 + numbers.below(4)],
            _ => Fate::Pass,
        })?;
    }
    Ok(fates)
}
