// Files that are made by a rule, so that what they come to can be reckoned apart from this program.
use std::alloc::Global;

// The year 2028 under the flat option.
const YEAR: [u8; 6] = [1, 0, 3, 7, 236, 0];

// Eight plants with eight regimes, of 2,000 to 2,007 W.
const PLANTS: [[u8; 10]; 8] = [
    [2, 0, 7, 0, 0, 7, 208, 0, 0, 0],
    [2, 0, 7, 0, 0, 7, 209, 0, 0, 1],
    [2, 0, 7, 0, 0, 7, 210, 0, 1, 2],
    [2, 0, 7, 0, 0, 7, 211, 0, 0, 3],
    [2, 0, 7, 0, 0, 7, 212, 0, 0, 4],
    [2, 0, 7, 0, 0, 7, 213, 0, 1, 5],
    [2, 0, 7, 0, 0, 7, 214, 0, 0, 6],
    [2, 0, 7, 0, 0, 7, 215, 0, 0, 7],
];

// The contract 11.
const CONTRACT: [u8; 7] = [3, 0, 4, 0, 0, 0, 11];

const END: [u8; 3] = [6, 0, 0];

// The remarks that a file may have.
const REMARKS: u16 = 4_096;

// Those after the year and after each plant.
const EARLIER_REMARKS: u16 = 9;

// Draw, feed-in, store in and store out of a quarter: its number times the first, modulo the second.
const AMOUNTS: [(u32, u32); 4] = [(37, 1_300), (53, 2_500), (13, 500), (29, 400)];

fn add_remark(file: &mut Vec<u8>, length: u16) -> anyhow::Result<()> {
    file.push(5)?;
    file.extend_from_slice(&length.to_be_bytes())?;
    file.extend((0..length).map(|place| (place % 251) as u8))?;
    Ok(())
}

fn add_quarter(file: &mut Vec<u8>, quarter: u16) -> anyhow::Result<()> {
    file.extend_from_slice(&[4, 0, 18])?;
    file.extend_from_slice(&quarter.to_be_bytes())?;
    for (factor, end) in AMOUNTS {
        let amount = u32::from(quarter) * factor % end;
        file.extend_from_slice(&amount.to_be_bytes())?;
    }
    Ok(())
}

// A whole leap year, with a remark after each record as long as there may be more.
pub fn remarked_year(heap: Global) -> anyhow::Result<Vec<u8>> {
    let mut file = Vec::new(heap);
    file.extend_from_slice(&YEAR)?;
    for (place, plant) in PLANTS.iter().enumerate() {
        add_remark(&mut file, (place % 7) as u16)?;
        file.extend_from_slice(plant)?;
    }
    add_remark(&mut file, 8 % 7)?;
    file.extend_from_slice(&CONTRACT)?;
    for quarter in 0..35_136 {
        if quarter < REMARKS - EARLIER_REMARKS {
            add_remark(&mut file, (quarter + EARLIER_REMARKS) % 7)?;
        }
        add_quarter(&mut file, quarter)?;
    }
    file.extend_from_slice(&END)?;
    Ok(file)
}

// Two leading remarks shift all that follows by `shift` bytes; a remark of `long` bytes stands between the quarters.
pub fn shifted(heap: Global, shift: u16, long: u16) -> anyhow::Result<Vec<u8>> {
    let mut file = Vec::new(heap);
    add_remark(&mut file, shift - shift / 2)?;
    add_remark(&mut file, shift / 2)?;
    file.extend_from_slice(&YEAR)?;
    file.extend_from_slice(&PLANTS[0])?;
    file.extend_from_slice(&CONTRACT)?;
    add_remark(&mut file, 17)?;
    for quarter in 0..1_509 {
        add_quarter(&mut file, quarter)?;
    }
    add_remark(&mut file, long)?;
    for quarter in 1_509..1_700 {
        add_quarter(&mut file, quarter)?;
    }
    file.extend_from_slice(&END)?;
    Ok(file)
}
