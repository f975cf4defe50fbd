//! A worker while its round is worked.
use crate::worker::Worker;
use std::snapshot::Snapshot;
use std::sync::Wait;
use std::thread::{Promise, PromisedHandle, Scope, Threads};
use xm_config::Row;
use xm_memory::OutOfMemory;
use xm_segment::{Gate, Naming, Segment};

/// What a worker promises that takes its share in a thread of its own: from what it is, that it will have taken the share, if
/// memory suffices. A snapshot has no bytes.
#[derive(Drop)]
pub(crate) struct Takes<S: Naming> {
    worker: Snapshot<Worker<S>>,
    share: Snapshot<Vec<Row>>,
}

impl<S: Naming> Promise<Result<Worker<S>, OutOfMemory>> for Takes<S> {
    ghost use Rattle.std.specs.Prelude.{IfOk};
    ghost use Rattle.xm_workers.specs.Workers.{HasWorked};

    ghost kept_by = { λ promise result. IfOk result (λ after. HasWorked S.settings promise.share.value.items promise.worker.value after) };
}

/// A worker while its round is worked.
#[derive(Drop)]
pub(crate) enum Standing<S: Naming> {
    /// Its share has no row.
    Idle(Worker<S>),
    /// It takes its share.
    Working(PromisedHandle<Result<Worker<S>, OutOfMemory>, Takes<S>>),
}

impl<S: Naming + Send + Sync> Standing<S> {
    ghost use Rattle.std.specs.Prelude.{◌≡◌, ◌+◌, ◌≤◌, IfOk, length};
    ghost use Rattle.xm_workers.specs.Standing.{Took, WillTake, will_take};
    ghost use Rattle.xm_workers.specs.Workers.{HasRoomBehind, HasWorked, taken_in};

    /// Has a worker take its share in a thread of its own, if the share has a row.
    pub(crate) fn start<'s, E, T: Threads + Wait + Sync, G: Gate + Sync>(
        scope: &Scope<'s, E>,
        rt: &'s T,
        gate: &'s G,
        segment: &'s Segment<S>,
        worker: Worker<S>,
        share: Vec<Row>,
    ) -> Result<Standing<S>, OutOfMemory>
        requires { HasRoomBehind (taken_in worker.report) (length share.items) }
        ensures takes { IfOk result (λ standing. WillTake share.items worker standing) }
        ensures taken { IfOk result (λ standing. will_take standing ≡ taken_in worker.report + length share.items) }
    {
        if share.is_empty() {
            return Ok(Standing::Idle(worker));
        }
        let takes = Takes {
            worker: Snapshot::of(&worker),
            share: Snapshot::of(&share),
        };
        let work = move || -> Result<Worker<S>, OutOfMemory>
            requires { HasRoomBehind (taken_in worker.report) (length share.items) }
            ensures { IfOk result (λ after. HasWorked S.settings share.items worker after) }
        {
            let mut worker = worker;
            worker.work(rt, gate, segment, share.as_slice())?;
            Ok(worker)
        };
        Ok(Standing::Working(scope.spawn_with(takes, work)?))
    }

    /// Waits for the worker.
    pub(crate) fn join<T: Threads>(self, rt: &T) -> Result<Worker<S>, OutOfMemory>
        ensures took { IfOk result (λ after. Took S.settings self after) }
        ensures taken { IfOk result (λ after. taken_in after.report ≡ will_take self) }
    {
        match self {
            Standing::Idle(worker) => Ok(worker),
            Standing::Working(handle) => handle.join(rt),
        }
    }
}
