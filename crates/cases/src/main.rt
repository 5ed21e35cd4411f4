// Runs document 01's cases, and each refusal of its table on both sides of the limit, and prints a line for each.
#![tactic(auto)]

mod call;
mod check;
mod document;
mod given;
mod halls;
mod launches;
mod records;
mod scene;
mod set_ups;
mod steps;
mod told;

use call::Made;
use check::{Verdict, check};
use scene::{Scene, Slot};
use std::io;

// How many lines are right, and how many are not.
#[derive(Clone, Copy, Default)]
struct Count {
    right: u64,
    wrong: u64,
}

impl Count {
    fn add(&mut self, right: bool) {
        if right {
            self.right = self.right.saturating_add(1);
        } else {
            self.wrong = self.wrong.saturating_add(1);
        }
    }
}

fn play(scene: &Scene, count: &mut Count, rt: &impl Print) -> io::Result<()> {
    let what = scene.what;
    let Some(mut net) = scene.prepared() else {
        count.add(false);
        return println!(rt; "{what}: WRONG, a call before it is refused");
    };
    for row in scene.rows {
        let before = net;
        let (seen, verdict) = check(*row, &mut net);
        count.add(verdict == Verdict::Ok);
        let made = Made {
            call: row.0,
            net: &before,
        };
        println!(rt; "{what}: {made}: {seen} {verdict}")?;
    }
    for slot in scene.after {
        let found = Slot::of(&net, slot.0);
        count.add(found == Some(*slot));
        match found {
            Some(now) if now == *slot => println!(rt; "{what}: {now} ok")?,
            Some(now) => println!(rt; "{what}: {now} WRONG, not {slot}")?,
            None => println!(rt; "{what}: WRONG, no slot {}", slot.0)?,
        }
    }
    Ok(())
}

fn play_all(table: &[Scene], count: &mut Count, rt: &impl Print) -> io::Result<()> {
    for scene in table {
        play(scene, count, rt)?;
    }
    Ok(())
}

fn main(rt: HostRuntime) -> io::Result<()> {
    let mut count = Count::default();
    println!(rt; "what: call: reply pass controller name new over")?;
    let tables = [
        document::NEEDS,
        document::MOVES,
        document::BYTES,
        document::FULL,
        set_ups::ENVELOPES,
        set_ups::TABLES,
        launches::ENVELOPES,
        launches::TREES,
        launches::CONTROLLERS,
        launches::CODE,
        launches::ROOM,
        steps::NODES,
        steps::PASSES,
        steps::THREADS,
        steps::TARGETS,
        steps::SLIPS,
        steps::CODE,
        records::TABLES,
        records::SLOTS,
        records::POSITIONS,
    ];
    for table in tables {
        play_all(table, &mut count, &rt)?;
    }
    println!(rt; "{} ok, {} wrong", count.right, count.wrong)
}
