//! The demand of a job as its offset and end move.
ghost use Rattle.std.specs.Prelude.{◌≡◌, ◌≤◌, ◌<◌, ◌^◌, length, IfOk};
ghost use Rattle.lists.specs.Limits.{greatest_number};
ghost use Rattle.lists.specs.Searches.{IsFirstBelow};
ghost use Rattle.preemption.specs.CutLaws.{Serves};
ghost use Rattle.demand.specs.Demand.{blocking_of, need_of, rest_of};
ghost use Rattle.search_space.specs.Points.{IsPointAfter};
ghost use Rattle.meter.specs.Meters.{meter_at};

use crate::blockers::{Blocker, begun_segments, find_blocker, keep_blocker};
use crate::moves::{seat, shift};
use crate::soonest::Soonest;
use crate::tracks::{Place, Tracks};
use curve::Stair;
use demand::rest;
use policy::Policy;
use preemption::Preemption;
use search_space::across_gap;
use std::alloc::{AllocError, Global};
use std::marker::{Model, PhantomData};
use task_sheet::Sheet;

/// Where every curve stands at 0.
const GROUND: Place = Place {
    end: Stair {
        value: 0,
        from: 0,
        until: 1,
        come: 0,
    },
    count: 0,
};

/// The demand of a job, in ticks, at an offset and an end that can be moved.
///
/// A move costs what the tasks cost whose curves rise on the way; where the end falls, one look at
/// each task.
#[derive(Drop)]
pub struct Meter<'a, P: Policy, M: Preemption> {
    sheet: &'a Sheet,
    task: u32,
    offset: u64,
    end: u64,
    tracks: Tracks,
    begun: Vec<u64>,
    blocker: Blocker,
    rest: u64,
    of: PhantomData<P>,
    by: PhantomData<M>,
}

impl<'a, P: Policy, M: Preemption> Model for Meter<'a, P, M> {
    ghost use Rattle.meter.specs.MeterParts.{MeterParts};

    ghost Value = { MeterParts };

    ghost use Rattle.meter.specs.Meters.{IsMetering};

    ghost view = { λ m. record {
      sheet = m.sheet.now;
      task = m.task;
      offset = m.offset;
      end = m.end;
    } };

    ghost invariant = { λ m. IsMetering P.meaning M.cuts m.sheet.now m.task m.offset m.end m.tracks
        m.begun.items m.blocker m.rest };
}

impl<'a, P: Policy, M: Preemption> Meter<'a, P, M> {
    /// At offset 0 and end 0 of the sheet's first task. Only this call takes memory, at most 160
    /// bytes a task; want of it is its only error.
    pub fn new(alloc: Global, sheet: &'a Sheet) -> Result<Meter<'a, P, M>, AllocError>
        requires { Serves M.cuts sheet.now }
        ensures { IfOk result (λ m. m ≡ meter_at sheet.now 0 0 0) }
    {
        let count = sheet.len() as usize;
        let mut tracks = Tracks {
            places: vec![in alloc; GROUND; count]?,
            untils: Soonest::new(alloc, count)?,
            changes: Soonest::new(alloc, count)?,
            sum: 0,
        };
        let begun = begun_segments::<M>(alloc, sheet)?;
        seat::<P>(sheet, 0, &mut tracks);
        let blocker = find_blocker::<P, M>(sheet, 0, 0, &begun);
        Ok(Meter {
            sheet,
            task: 0,
            offset: 0,
            end: 0,
            tracks,
            begun,
            blocker,
            rest: rest::<M>(sheet, 0),
            of: PhantomData,
            by: PhantomData,
        })
    }

    /// Moves to offset 0 and end 0 of a task.
    pub fn open(&mut self, i: u32)
        requires { i < length self.old.sheet.tasks }
        ensures { self.new ≡ meter_at self.old.sheet i 0 0 }
    {
        seat::<P>(self.sheet, i, &mut self.tracks);
        self.blocker = find_blocker::<P, M>(self.sheet, i, 0, &self.begun);
        self.rest = rest::<M>(self.sheet, i);
        self.task = i;
        self.offset = 0;
        self.end = 0;
    }

    /// Moves to an offset that is not earlier, in ticks, and to any end, in ticks from the begin
    /// of the window.
    pub fn move_to(&mut self, a: u64, x: u64)
        requires order { self.old.offset ≤ a }
        requires offset { a < greatest_number }
        requires end { x ≤ greatest_number }
        ensures { self.new ≡ meter_at self.old.sheet self.old.task a x }
    {
        shift::<P>(
            self.sheet,
            self.task,
            (self.offset, self.end),
            a,
            x,
            &mut self.tracks,
        );
        self.blocker = keep_blocker::<P, M>(
            self.sheet,
            self.task,
            self.offset,
            a,
            &self.begun,
            self.blocker,
        );
        self.offset = a;
        self.end = x;
    }

    /// The longest, in ticks, that a segment that began before the window can block a job of its
    /// task that is released at its offset.
    pub fn blocking(&self) -> u64
        ensures { result ≡ blocking_of P.meaning M.cuts self.now.sheet self.now.task
            self.now.offset }
    {
        self.blocker.block
    }

    /// The demand of a job of its task that is released at its offset, in ticks, within its end.
    pub fn need(&self) -> u128
        ensures exact { result ≡ need_of P.meaning M.cuts self.now.sheet self.now.task
            self.now.offset self.now.end }
        ensures bound { result ≤ 2 ^ 93 }
    {
        self.blocker.block as u128 + (self.tracks.sum - self.rest as u128)
    }

    /// The ticks that a job of its task has still to run once it has had its threshold.
    pub fn rest(&self) -> u64
        ensures { result ≡ rest_of M.cuts self.now.sheet self.now.task }
    {
        self.rest
    }

    /// The least point of its task that is greater than its offset and smaller than `below`.
    pub fn next_point(&self, below: u64) -> Option<u64>
        requires { below ≤ greatest_number }
        ensures { IsFirstBelow (IsPointAfter P.meaning self.now.sheet self.now.task
            self.now.offset) below result }
    {
        across_gap::<P>();
        let next = self.tracks.changes.least_below(below);
        if next < below { Some(next) } else { None }
    }
}
