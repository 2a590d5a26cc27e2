//! Inboxes of the executors of one script, with two passes `a` and `b` and the taker: `PASS put` for the job of the next root's task, and
//! `take`. The first line of a case is the number of the executor and the room; at the end the inbox is drained. A line `ROOM ROUNDS` has
//! two threads, of which one puts the jobs of a thousand roots and the other takes them, so many times, each time by an inbox of a new
//! book.

ghost use Rattle.std.specs.Prelude.{◌≡◌, IfOk, Some};
ghost use Rattle.swift_executor.specs.Inbox.{IsPassOf, IsTakerOf};
ghost use Rattle.swift_executor.specs.Site.{CanRunAt};

use crate::desks::{Booked, Setting, can_run};
use std::alloc::Global;
use std::sync::Wait;
use std::thread;
use std::thread::Threads;
use swift_executor::inbox::{Inbox, Pass, Taker};
use swift_job::Job;
use swift_shared_book::{BookLock, TicketedJob, TicketedJobs};
use swift_turn::Body;
use swift_types::ExecId;
use test_support::{CaseFault, Said, Words};

// Root 5 begins on executor 1, and the others on executor 0.
const TEXT: &str = "executor Desk fifo;
actor Clerk on Desk { func file(n) { return n; } }
actor Guest { func call(n) { return n; } }
root r0 = Clerk.file(0);
root r1 = Clerk.file(1);
root r2 = Clerk.file(2);
root r3 = Clerk.file(3);
root r4 = Clerk.file(4);
root r5 = Guest.call(5);
root r6 = Clerk.file(6);
";

// How many roots put a job each into the inbox of two threads.
const ROOTS: u32 = 1000;

// The task and the number of a job, which is spent.
fn spent(job: Job<Body>) -> (u32, u32) {
    let (task, number, _resume, _body) = job.spend();
    (task.0, number)
}

// The task and the number of a job.
fn name_of(job: &TicketedJob) -> (u32, u32) {
    (job.job().task().0, job.job().number())
}

// Puts a job in, where it can run at the inbox's executor.
fn put<R: Wait>(rt: &R, inbox: &Inbox, pass: &mut Pass, job: TicketedJob) -> &'static str
    requires pass { IsPassOf inbox.now pass.old }
    requires book { job.book ≡ inbox.now.site.book }
    ensures { IsPassOf inbox.now pass.new }
{
    let name = name_of(&job);
    if !can_run(inbox.site(), &job) {
        return "another executor";
    }
    match inbox.put(rt, pass, job) {
        Ok(()) => "ok",
        Err(back) if name_of(&back) == name => "full",
        Err(_) => "full, and another job came back",
    }
}

// Puts the next root's job in.
fn put_next<R: Wait>(
    rt: &R,
    alloc: Global,
    inbox: &Inbox,
    booked: &mut Booked,
    pass: &mut Pass,
    words: &mut Words<'_>,
    out: &mut Said,
) -> Result<(), CaseFault>
    requires pass { IsPassOf inbox.now pass.old }
    requires book { inbox.now.site.book ≡ Some booked.old }
    ensures pass { IsPassOf inbox.now pass.new }
    ensures same { booked.new ≡ booked.old }
{
    if !words.has("put") {
        words.refuse();
    }
    let job = booked.next_job(rt, alloc)?;
    out.put(put(rt, inbox, pass, job));
    Ok(())
}

// What was taken, which is spent.
fn tell_taken(taken: Option<TicketedJob>, out: &mut Said) {
    let Some(job) = taken else {
        return out.put("none");
    };
    let (task, number) = name_of(&job);
    tell_job(task, number, out)
}

// A job, by its task and its number.
fn tell_job(task: u32, number: u32, out: &mut Said) {
    out.number("task ", i64::from(task));
    out.number(" turn ", i64::from(number))
}

// Makes the call of a line, and writes its answer.
fn answer<R: Wait>(
    rt: &R,
    alloc: Global,
    inbox: &Inbox,
    booked: &mut Booked,
    a: &mut Pass,
    b: &mut Pass,
    taker: &mut Taker,
    words: &mut Words<'_>,
    out: &mut Said,
) -> Result<(), CaseFault>
    requires a { IsPassOf inbox.now a.old }
    requires b { IsPassOf inbox.now b.old }
    requires taker { IsTakerOf inbox.now taker.old }
    requires book { inbox.now.site.book ≡ Some booked.old }
    ensures a { IsPassOf inbox.now a.new }
    ensures b { IsPassOf inbox.now b.new }
    ensures taker { IsTakerOf inbox.now taker.new }
    ensures same { booked.new ≡ booked.old }
{
    match words.next() {
        "a" => return put_next(rt, alloc, inbox, booked, a, words, out),
        "b" => return put_next(rt, alloc, inbox, booked, b, words, out),
        "take" => tell_taken(inbox.take(rt, taker), out),
        _ => words.refuse(),
    }
    Ok(())
}

// Makes the calls of a case by two passes and the taker.
fn calls<R: Wait>(
    rt: &R,
    alloc: Global,
    inbox: &Inbox,
    booked: &mut Booked,
    mut a: Pass,
    taker: &mut Taker,
    lines: &str,
    out: &mut Said,
) -> Result<(), CaseFault>
    requires pass { IsPassOf inbox.now a }
    requires taker { IsTakerOf inbox.now taker.old }
    requires book { inbox.now.site.book ≡ Some booked.old }
    ensures { IsTakerOf inbox.now taker.new }
{
    let mut b = a.split(inbox);
    for line in lines.split('\n') {
        let mut words = Words::new(line);
        answer(
            rt, alloc, inbox, booked, &mut a, &mut b, taker, &mut words, out,
        )?;
        if !words.are_right() {
            return Err(CaseFault::Form);
        }
        out.put("\n");
    }
    Ok(())
}

// What is inside, the oldest first.
fn drained<R: Wait>(
    rt: &R,
    alloc: Global,
    inbox: Inbox,
    taker: Taker,
) -> Result<Vec<(u32, u32)>, CaseFault>
    requires { IsTakerOf inbox taker }
{
    let room = inbox.room();
    let mut seen = Vec::with_capacity(alloc, room)?;
    let list = Vec::with_capacity(alloc, room)?;
    let (mut list, _taker) = inbox.drain(rt, taker, list);
    while let Some(job) = list.pop() {
        let _ = seen.push(spent(job));
    }
    list.destroy_empty();
    seen.reverse();
    Ok(seen)
}

// Two numbers.
fn two_of(line: &str) -> Option<(u32, u32)> {
    let mut words = Words::new(line);
    let numbers = (words.number(), words.number());
    if words.are_right() {
        Some(numbers)
    } else {
        None
    }
}

/// Makes an inbox and the calls of a case, and says what is left inside.
pub fn play_inbox<R: Wait>(
    rt: &R,
    alloc: Global,
    case: &str,
    out: &mut Said,
) -> Result<(), CaseFault> {
    let Some((head, lines)) = case.split_once('\n') else {
        return Err(CaseFault::Form);
    };
    let Some((executor, room)) = two_of(head) else {
        return Err(CaseFault::Form);
    };
    let mut booked = Setting::read(alloc, TEXT)?.booked(alloc)?;
    let (inbox, pass, mut taker) = booked.inbox(alloc, ExecId(executor), room as usize)?;
    let called = calls(rt, alloc, &inbox, &mut booked, pass, &mut taker, lines, out);
    let left = drained(rt, alloc, inbox, taker)?;
    called?;
    for (task, number) in &left {
        out.put("left: ");
        tell_job(*task, *number, out);
        out.put("\n");
    }
    Ok(())
}

// Puts a job in as soon as there is room.
fn put_at_last<R: Wait>(rt: &R, inbox: &Inbox, pass: &mut Pass, job: TicketedJob)
    requires pass { IsPassOf inbox.now pass.old }
    requires job { CanRunAt inbox.now.site job }
    ensures { IsPassOf inbox.now pass.new }
{
    let mut waiting = job;
    for _ in rt.forever() {
        match inbox.put(rt, pass, waiting) {
            Ok(()) => return,
            Err(back) => waiting = back,
        }
        thread::yield_now();
    }
    unreachable!()
}

// The task of the next job.
fn take_at_last<R: Wait>(rt: &R, inbox: &Inbox, taker: &mut Taker) -> u32
    requires { IsTakerOf inbox.now taker.old }
    ensures { IsTakerOf inbox.now taker.new }
{
    for _ in rt.forever() {
        if let Some(job) = inbox.take(rt, taker) {
            return name_of(&job).0;
        }
        thread::yield_now();
    }
    unreachable!()
}

// Puts these jobs in, the oldest first. Whether each can run there.
fn put_all<R: Wait>(
    rt: &R,
    inbox: &Inbox,
    book: &BookLock,
    mut pass: Pass,
    mut jobs: TicketedJobs,
) -> bool
    requires pass { IsPassOf inbox.now pass }
    requires jobs { jobs.book ≡ book.now.id }
    requires book { inbox.now.site.book ≡ Some book.now.id }
{
    'putting: for _ in 0..jobs.len() {
        let Some(job) = jobs.take_first(book) else {
            return false;
        };
        if !can_run(inbox.site(), &job) {
            return false;
        }
        put_at_last(rt, inbox, &mut pass, job);
    }
    true
}

// Takes `count` jobs out. The sum of the numbers of their tasks, and the taker.
fn take_all<R: Wait>(rt: &R, inbox: &Inbox, mut taker: Taker, count: u32) -> (u64, Taker)
    requires { IsTakerOf inbox.now taker }
    ensures { IsTakerOf inbox.now result.1 }
{
    let mut sum = 0u64;
    for _ in 0..count {
        sum = sum.wrapping_add(u64::from(take_at_last(rt, inbox, &mut taker)));
    }
    (sum, taker)
}

// One thread puts, and another takes. Whether all could be put, the sum of the numbers of the tasks that came out, and the taker.
fn by_two_threads<R: Threads + Wait + Sync>(
    rt: &R,
    inbox: &Inbox,
    book: &BookLock,
    pass: Pass,
    taker: Taker,
    jobs: TicketedJobs,
) -> (bool, (u64, Taker))
    requires pass { IsPassOf inbox.now pass }
    requires taker { IsTakerOf inbox.now taker }
    requires jobs { jobs.book ≡ book.now.id }
    requires book { inbox.now.site.book ≡ Some book.now.id }
    ensures { IsTakerOf inbox.now result.1.1 }
{
    thread::join(
        rt,
        move || -> bool
            requires pass { IsPassOf inbox.now pass }
            requires jobs { jobs.book ≡ book.now.id }
            requires book { inbox.now.site.book ≡ Some book.now.id }
        { put_all(rt, inbox, book, pass, jobs) },
        move || -> (u64, Taker)
            requires { IsTakerOf inbox.now taker }
            ensures { IsTakerOf inbox.entry.now result.1 }
        { take_all(rt, inbox, taker, ROOTS) },
    )
}

// A script of so many roots.
fn many_roots(alloc: Global) -> Result<Setting, CaseFault> {
    let mut text = Said::new(alloc);
    text.put("actor A { func f() { return 1; } }\n");
    for number in 0..ROOTS {
        text.count("root r", u64::from(number));
        text.put(" = A.f();\n");
    }
    Setting::read(alloc, &text.end()?)
}

// The jobs of the roots of a script.
fn all_jobs<R: Wait>(rt: &R, alloc: Global, booked: &mut Booked) -> Result<TicketedJobs, CaseFault>
    ensures { IfOk result (λ jobs. jobs.book ≡ booked.new) }
{
    let mut jobs = booked.no_jobs(alloc);
    for root in 0..ROOTS {
        booked.add_root(rt, root, &mut jobs)?;
    }
    Ok(jobs)
}

// Has two threads put and take the jobs of a new book. The sum of the numbers of the tasks that came out, and how many jobs are left.
fn play_round<R: Threads + Wait + Sync>(
    rt: &R,
    alloc: Global,
    setting: &Setting,
    room: usize,
) -> Result<(u64, usize), CaseFault> {
    let mut booked = setting.booked(alloc)?;
    let jobs = all_jobs(rt, alloc, &mut booked)?;
    let (inbox, pass, taker) = booked.inbox(alloc, ExecId(0), room)?;
    let (is_put, (sum, taker)) = by_two_threads(rt, &inbox, booked.book(), pass, taker, jobs);
    let left = drained(rt, alloc, inbox, taker)?.len();
    if is_put {
        Ok((sum, left))
    } else {
        Err(CaseFault::Form)
    }
}

/// Two threads, of which one puts and the other takes, by inboxes with this room: whether each job came out once, as far as the sum of
/// their tasks' numbers says.
pub fn play_threads<R: Threads + Wait + Sync>(
    rt: &R,
    alloc: Global,
    case: &str,
    out: &mut Said,
) -> Result<(), CaseFault> {
    let Some((room, rounds)) = two_of(case) else {
        return Err(CaseFault::Form);
    };
    let setting = many_roots(alloc)?;
    let (mut sum, mut left) = (0u64, 0u64);
    for _ in 0..rounds {
        let (taken, inside) = play_round(rt, alloc, &setting, room as usize)?;
        sum = sum.saturating_add(taken);
        left = left.saturating_add(inside as u64);
    }
    out.count("sum ", sum);
    out.count(", ", left);
    out.put(" left\n");
    Ok(())
}
