//! A worker of a host, in a thread of its own. It brings back its starter, its desks and the ends of the pipe.
ghost use Rattle.std.specs.Prelude.{◌≡◌, string_bytes};
ghost use Rattle.wx_desk.specs.Desks.{IsSound};
ghost use Rattle.wx_pump.specs.Serving.{told_by};
ghost use Rattle.wx_pump.specs.Workers.{IsDone, IsGood, task_for, task_in};

use crate::serving::{Served, serve_host};
use std::alloc::Global;
use std::snapshot::Snapshot;
use std::sync::Wait;
use std::thread;
use std::thread::{Promise, PromisedHandle, Scope, Threads};
use wx_bell::Bell;
use wx_host_launch::{Arguments, HostDesk, Starter};

/// What a worker brings back.
#[derive(Drop)]
pub struct HostDone<P: Starter, D: HostDesk + Drop> {
    pub starter: P,
    pub first: D,
    pub second: D,
    pub came: Served<P::In, P::Out>,
}

/// What a worker is to do, of which nothing is kept at run time.
#[derive(Drop)]
pub struct HostPart<P: Starter, D: HostDesk + Drop> {
    pub starter: Snapshot<P>,
    pub first: Snapshot<D>,
    pub second: Snapshot<D>,
    pub path: Snapshot<String>,
    pub arguments: Snapshot<Arguments>,
}

impl<P: Starter, D: HostDesk + Drop> Promise<HostDone<P, D>> for HostPart<P, D> {
    ghost use Rattle.wx_pump.specs.Workers.{IsDone, task_of};

    ghost kept_by = { λ part done.
        IsDone P.state D.state D.told D.key P.In.state P.Out.state D.going
        (task_of P.state D.state D.told D.key part) done };
}

/// A worker: its thread, or what it brought where no thread could be had.
#[derive(Drop)]
pub enum HostWorker<P: Starter, D: HostDesk + Drop> {
    Runs(PromisedHandle<HostDone<P, D>, HostPart<P, D>>),
    Ran(HostDone<P, D>, HostPart<P, D>),
}

/// Serves the host. It is handed an answer that it lets go, by which the closure that calls it names the ends' types.
fn serve<R: Threads + Wait + Sync, P: Starter, D: HostDesk + Drop, B: Bell>(
    rt: &R,
    alloc: Global,
    mut starter: P,
    mut first: D,
    mut second: D,
    _none: Served<P::In, P::Out>,
    path: &String,
    arguments: &Arguments,
    in_bell: &B,
    out_bell: &B,
) -> HostDone<P, D>
    requires first { IsSound (D.state first) }
    requires second { IsSound (D.state second) }
    ensures { IsDone P.state D.state D.told D.key P.In.state P.Out.state D.going
        (task_for (P.state starter) (string_bytes path.now) arguments.now
        (told_by D.state D.told D.key first) (told_by D.state D.told D.key second)) result }
{
    let came = serve_host(
        rt,
        alloc,
        &mut starter,
        path,
        arguments,
        &mut first,
        &mut second,
        in_bell,
        out_bell,
    );
    HostDone {
        starter,
        first,
        second,
        came,
    }
}

/// Starts the worker of a host. Where no thread can be had the work is done at once.
pub fn start_host<
    's,
    'e: 's,
    E,
    R: Threads + Wait + Sync,
    P: Starter + 'e,
    D: HostDesk + Drop + 'e,
    B: Bell,
>(
    scope: &'s Scope<'s, E>,
    rt: &'e R,
    alloc: Global,
    starter: P,
    first: D,
    second: D,
    path: String,
    arguments: Arguments,
    in_bell: &'e B,
    out_bell: &'e B,
) -> HostWorker<P, D>
    requires first { IsSound (D.state first) }
    requires second { IsSound (D.state second) }
    ensures good { IsGood P.state D.state D.told D.key P.In.state P.Out.state D.going result }
    ensures task { task_in P.state D.state D.told D.key result ≡
        task_for (P.state starter) (string_bytes path) arguments
        (told_by D.state D.told D.key first) (told_by D.state D.told D.key second) }
{
    let part = HostPart {
        starter: Snapshot::of(&starter),
        first: Snapshot::of(&first),
        second: Snapshot::of(&second),
        path: Snapshot::of(&path),
        arguments: Snapshot::of(&arguments),
    };
    let again = HostPart {
        starter: Snapshot::of(&starter),
        first: Snapshot::of(&first),
        second: Snapshot::of(&second),
        path: Snapshot::of(&path),
        arguments: Snapshot::of(&arguments),
    };
    let none: Served<P::In, P::Out> = Served::NoMemory;
    let run = move || -> HostDone<P, D>
        requires first { IsSound (D.state first) }
        requires second { IsSound (D.state second) }
        ensures { IsDone P.state D.state D.told D.key P.In.state P.Out.state D.going
            (task_for (P.state starter) (string_bytes path) arguments
            (told_by D.state D.told D.key first) (told_by D.state D.told D.key second)) result }
    {
        serve(
            rt, alloc, starter, first, second, none, &path, &arguments, in_bell, out_bell,
        )
    };
    match scope.spawn_with(part, run) {
        Ok(child) => HostWorker::Runs(child),
        Err(refused) => HostWorker::Ran((refused.value)(), again),
    }
}

/// Waits for the worker of a host.
pub fn finish_host<R: Threads, P: Starter, D: HostDesk + Drop>(
    rt: &R,
    worker: HostWorker<P, D>,
) -> HostDone<P, D>
    requires { IsGood P.state D.state D.told D.key P.In.state P.Out.state D.going worker }
    ensures { IsDone P.state D.state D.told D.key P.In.state P.Out.state D.going
        (task_in P.state D.state D.told D.key worker) result }
{
    match worker {
        HostWorker::Runs(child) => child.join(rt),
        HostWorker::Ran(done, _) => done,
    }
}

/// Starts the worker of a host, and waits for it.
fn serve_in<
    's,
    'e: 's,
    E,
    R: Threads + Wait + Sync,
    P: Starter + 'e,
    D: HostDesk + Drop + 'e,
    B: Bell,
>(
    scope: &'s Scope<'s, E>,
    rt: &'e R,
    alloc: Global,
    starter: P,
    first: D,
    second: D,
    path: String,
    arguments: Arguments,
    in_bell: &'e B,
    out_bell: &'e B,
) -> HostDone<P, D>
    requires first { IsSound (D.state first) }
    requires second { IsSound (D.state second) }
    ensures { IsDone P.state D.state D.told D.key P.In.state P.Out.state D.going
        (task_for (P.state starter) (string_bytes path) arguments
        (told_by D.state D.told D.key first) (told_by D.state D.told D.key second)) result }
{
    let worker = start_host(
        scope, rt, alloc, starter, first, second, path, arguments, in_bell, out_bell,
    );
    finish_host(rt, worker)
}

/// Serves a host in a thread of its own, and waits for it. What the worker did is kept through the join.
pub fn serve_apart<'e, R: Threads + Wait + Sync, P: Starter + 'e, D: HostDesk + Drop + 'e, B: Bell>(
    rt: &'e R,
    alloc: Global,
    starter: P,
    first: D,
    second: D,
    path: String,
    arguments: Arguments,
    in_bell: &'e B,
    out_bell: &'e B,
) -> HostDone<P, D>
    requires first { IsSound (D.state first) }
    requires second { IsSound (D.state second) }
    ensures { IsDone P.state D.state D.told D.key P.In.state P.Out.state D.going
        (task_for (P.state starter) (string_bytes path) arguments
        (told_by D.state D.told D.key first) (told_by D.state D.told D.key second)) result }
{
    let none: Served<P::In, P::Out> = Served::NoMemory;
    thread::scope(
        thread::scope_env(),
        rt,
        move |scope| -> HostDone<P, D>
            requires first { IsSound (D.state first) }
            requires second { IsSound (D.state second) }
            ensures { IsDone P.state D.state D.told D.key P.In.state P.Out.state D.going
                (task_for (P.state starter) (string_bytes path) arguments
                (told_by D.state D.told D.key first) (told_by D.state D.told D.key second)) result }
        {
            let _none = none;
            serve_in(
                scope, rt, alloc, starter, first, second, path, arguments, in_bell, out_bell,
            )
        },
    )
}
