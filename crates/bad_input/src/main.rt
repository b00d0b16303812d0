// The sample site's file, damaged in many ways, and what each damaged file comes to: settled, or refused by which question and where.
#![tactic(auto)]

use calendar::published_table::PublishedTable;
use settlement::settlement::Settlement;
use std::{fs, io};

// A remark of no content.
const REMARK: [u8; 3] = [5, 0, 0];

// Settles files by one table, and prints what they come to. Each program has its own: a crate for two fields would be no plainer.
#[derive(Clone, Copy)]
struct Trial<'r, 't> {
    rt: &'r HostRuntime,
    table: PublishedTable<'t>,
}

impl Trial<'_, '_> {
    // The bytes come in as pieces of this size.
    fn report(&self, what: &str, at: usize, bytes: &[u8], piece: usize) -> io::Result<()> {
        let mut settlement = Settlement::new(self.table);
        for part in bytes.chunks(piece.max(1)) {
            settlement.feed(part);
        }
        match settlement.finish() {
            Ok(_) => println!(self.rt; "{what} {at}: settled"),
            Err(fault) => println!(self.rt; "{what} {at}: {fault}"),
        }
    }

    // Cut at each place, with the bytes before each place left out, and with the byte at each place changed. A damage is told by its place.
    fn damage(&self, file: &[u8]) -> anyhow::Result<()> {
        for at in 0..file.len() {
            let (before, rest) = file.split_at(at);
            self.report("cut at", at, before, at % 5)?;
            self.report("from", at, rest, at % 7)?;
            let mut changed = file.to_vec(self.rt.alloc())?;
            if let Some(byte) = changed.get_mut(at) {
                *byte = 255;
            }
            self.report("changed at", at, &changed, at % 3)?;
        }
        Ok(())
    }

    // A file with so many remarks of no content before it.
    fn with_remarks(&self, file: &[u8], remarks: usize) -> anyhow::Result<()> {
        let mut bytes = Vec::new(self.rt.alloc());
        for _ in 0..remarks {
            bytes.extend_from_slice(&REMARK)?;
        }
        bytes.extend_from_slice(file)?;
        self.report("remarks", remarks, &bytes, 1_000)?;
        Ok(())
    }
}

fn main(rt: HostRuntime) -> anyhow::Result<()> {
    let file = fs::read(&rt, "sample.file")?;
    let mut table = fs::read(&rt, "calendar.bin")?;
    let trial = Trial {
        rt: &rt,
        table: PublishedTable::new(&table),
    };
    trial.damage(&file)?;
    // The sample has one remark of its own.
    trial.with_remarks(&file, 4_095)?;
    trial.with_remarks(&file, 4_096)?;
    let mut longer = file.to_vec(rt.alloc())?;
    longer.push(0)?;
    trial.report("bytes after the end", 1, &longer, 200)?;
    table.push(0)?;
    let wide = Trial {
        rt: &rt,
        table: PublishedTable::new(&table),
    };
    wide.report("table of", 35_137, &file, 200)?;
    let empty = Trial {
        rt: &rt,
        table: PublishedTable::new(&[]),
    };
    empty.report("table of", 0, &file, 200)?;
    Ok(())
}
