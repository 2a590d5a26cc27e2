//! What is the same in each program.

/// Where Swift does otherwise, in the order of the list at the head of a program.
#[derive(Clone, Copy)]
pub(crate) enum Difference {
    /// What a turn does to tasks and groups is done at once.
    AtOnce,
    /// What is asked of the own task is so at that moment.
    AtThatMoment,
    /// A spawned task has its maker's first priority.
    FirstPriority,
    /// A child is not more urgent than its owner.
    ChildPriority,
    /// Nothing is undone.
    NotUndone,
    /// Another executor's actor has no fields here.
    Isolation,
    /// What does not suspend.
    NoSuspension,
    /// A task that gives way goes through Swift's pool.
    ThroughThePool,
    /// A task ends after it has left its actor.
    LateEnds,
}

/// How many entries the list has.
pub(crate) const DIFFERENCES: usize = 10;

impl Difference {
    /// Its number in the list. The seventh, that there are no limits, stands at no line.
    pub(crate) fn number(self) -> usize {
        match self {
            Difference::AtOnce => 1,
            Difference::AtThatMoment => 2,
            Difference::FirstPriority => 3,
            Difference::ChildPriority => 4,
            Difference::NotUndone => 5,
            Difference::Isolation => 6,
            Difference::NoSuspension => 8,
            Difference::ThroughThePool => 9,
            Difference::LateEnds => 10,
        }
    }
}

/// What stands before the rest: where Swift does otherwise.
pub(crate) static NOTES: &str =
    "// The same protocol as a Swift program, for Swift's own runtime: swiftc -swift-version 6 -parse-as-library FILE
//
// What Swift does otherwise than `nuchapay run`. The numbers stand below at the lines where it may matter; but 7 stands at none, and 5
// only at invariants, though each +!, -! and *! may overflow.
// 1. What a turn does to tasks and groups is done at once, and not at the turn's end: a task may begin before its maker's turn has
//    ended, and stays made where that turn ends with a fault. Tasks are numbered as they are made.
// 2. `cancelled`, `check` and `priority` tell what is so at that moment, and not what was so when the turn began.
// 3. A task that is spawned without a priority by one that was raised has the priority that its maker had at first.
// 4. A priority of a child above its owner's has no effect.
// 5. Nothing is undone. Where an invariant does not hold after a turn, a line on standard error says so, and the task goes on.
//    A turn that ends with `overflow` keeps what it did before.
// 6. Actors of other executors have no fields here: Swift would end the process, and this is the fault `isolation`.
// 7. There is no limit on steps, turns and tasks.
// 8. A call of an actor of the same executor, a wait for a task that has ended, `next` where a result is there, and the end of a group
//    whose children have ended do not suspend.
// 9. A task that gives way goes through Swift's pool, so tasks of one executor may come back in another order.
// 10. A task ends after it has left its actor, so a group may give results in another order than that of its children's last turns.
//
// A variable that is never read, and what stands after a `return` or a `throw`, are left out.

import Foundation

";

/// What stands after the rest: how tasks are noted, whole numbers, executors, and the report.
pub(crate) static PRELUDE: &str =
    "// What is the same for each script: how tasks are noted, whole numbers with their faults, executors, and the report.

enum Fault: Error {
    case thrown(Int64), overflow, empty, isolation, depth
}

infix operator +!: AdditionPrecedence
infix operator -!: AdditionPrecedence
infix operator *!: MultiplicationPrecedence
prefix operator -!

extension Int64 {
    static func +! (left: Int64, right: Int64) throws -> Int64 { try Run.exact(left.addingReportingOverflow(right)) }
    static func -! (left: Int64, right: Int64) throws -> Int64 { try Run.exact(left.subtractingReportingOverflow(right)) }
    static func *! (left: Int64, right: Int64) throws -> Int64 { try Run.exact(left.multipliedReportingOverflow(by: right)) }
    static prefix func -! (number: Int64) throws -> Int64 { try 0 -! number }
}

enum Run {
    enum Origin { case root(String), child, spawned, detached }

    struct Made {
        let origin: Origin
        let maker: Int
        var ending: String?
        var isLeftOut = false
        var frames = 0
    }

    // The number of the task that asks.
    @TaskLocal static var task = -1
    nonisolated(unsafe) static var tasks: [Made] = []
    // How many have not ended, with `main` until all roots are there.
    nonisolated(unsafe) static var underWay = 1
    static let lock = NSLock()
    static let gate = DispatchGroup()
    static let ended = DispatchSemaphore(value: 0)

    static var priority: Int64 {
        let raw = Task.currentPriority.rawValue
        return raw < TaskPriority.low.rawValue ? 0 : raw < TaskPriority.medium.rawValue ? 1 : raw < TaskPriority.high.rawValue ? 2 : 3
    }

    static var cancelled: Int64 { number(Task.isCancelled) }

    static func number(_ test: Bool) -> Int64 { test ? 1 : 0 }

    // A test of numbers that the script spells.
    static func holds(_ test: Bool) -> Bool { test }

    static func exact(_ answer: (partialValue: Int64, overflow: Bool)) throws -> Int64 {
        if answer.overflow { throw Fault.overflow }
        return answer.partialValue
    }

    static func next(_ value: Int64?) throws -> Int64 {
        guard let value else { throw Fault.empty }
        return value
    }

    static func assume<Other: Actor>(_ other: Other, _ body: (isolated Other) throws -> Void) throws {
        try other.assumeIsolated(body)
    }

    // Says so where an invariant does not hold at the end of a turn.
    static func check(_ actor: String, _ invariant: () throws -> Bool) {
        if (try? invariant()) != true {
            FileHandle.standardError.write(Data(\"the invariant of \\(actor) does not hold after a turn\\n\".utf8))
        }
    }

    // Notes a task that is made, and gives its number.
    static func made(_ origin: Origin) -> Int {
        lock.withLock {
            underWay += 1
            tasks.append(Made(origin: origin, maker: task))
            return tasks.count - 1
        }
    }

    // Whether a child was added. One that was not gives its number back, the last one that its maker took.
    static func added(_ isAdded: Bool) {
        if isAdded { return }
        note(lock.withLock { tasks.lastIndex { $0.maker == task }! }) { $0.isLeftOut = true }
    }

    // Counts a method that a task begins, of which it has at most 64 under way.
    static func beginMethod() throws {
        try lock.withLock {
            if tasks[task].frames == 64 { throw Fault.depth }
            tasks[task].frames += 1
        }
    }

    static func endMethod() {
        lock.withLock { tasks[task].frames -= 1 }
    }

    static func note(_ number: Int, _ change: (inout Made) -> Void) {
        lock.withLock { change(&tasks[number]) }
        leave()
    }

    static func leave() {
        let isLast = lock.withLock {
            underWay -= 1
            return underWay == 0
        }
        if isLast { ended.signal() }
    }

    // Runs a task's method, and notes how it ends.
    static func noted(
        _ number: Int, isolation: isolated (any Actor)? = #isolation, _ method: () async throws -> Int64
    ) async throws -> Int64 {
        try await $task.withValue(number) {
            do {
                let value = try await method()
                note(number) { $0.ending = \"value \\(value)\" }
                return value
            } catch {
                note(number) { $0.ending = \"fault \\(word(error))\" }
                throw error
            }
        }
    }

    static func word(_ error: any Error) -> String {
        switch error {
        case Fault.thrown(let value): \"thrown \\(value)\"
        case is CancellationError: \"cancelled\"
        default: \"\\(error)\"
        }
    }

    // Keeps the executor of an actor from its jobs until all roots are there.
    static func hold() { gate.wait() }

    // Waits until all tasks have ended, and prints how. Whether each gave a value.
    static func report() -> Bool {
        leave()
        ended.wait()
        print(\"tasks\")
        var places: [Int] = []
        var place = 0
        for made in tasks {
            places.append(place)
            if made.isLeftOut { continue }
            let ending = made.ending ?? \"none\"
            switch made.origin {
            case .root(let name): print(\"t\\(place) root \\(name) \\(ending)\")
            default: print(\"t\\(place) \\(made.origin) t\\(places[made.maker]) \\(ending)\")
            }
            place += 1
        }
        print(\"fields\")
        return tasks.allSatisfy { $0.isLeftOut || $0.ending?.hasPrefix(\"value\") == true }
    }

    // A serial executor. It takes its oldest job, or the oldest of the most urgent ones.
    final class Executor: SerialExecutor, @unchecked Sendable {
        enum Kind {
            case fifo, priority
            case pinned(Int)
        }

        let isFifo: Bool
        let start: (@escaping @Sendable () -> Void) -> Void
        let lock = NSLock()
        var jobs: [UnownedJob] = []

        init(_ kind: Kind) {
            if case .fifo = kind { isFifo = true } else { isFifo = false }
            if case .pinned(let place) = kind {
                start = Worker.all[place].start
            } else {
                let queue = DispatchQueue(label: \"executor\")
                start = { queue.async(execute: $0) }
            }
        }

        func enqueue(_ job: consuming ExecutorJob) {
            let job = UnownedJob(job)
            lock.withLock { jobs.append(job) }
            start { self.take().runSynchronously(on: self.asUnownedSerialExecutor()) }
        }

        func take() -> UnownedJob {
            lock.withLock {
                var best = 0
                for place in jobs.indices where !isFifo && jobs[place].priority > jobs[best].priority { best = place }
                return jobs.remove(at: best)
            }
        }
    }

    // A thread, for the executors that are pinned to it.
    final class Worker: @unchecked Sendable {
        static let all = (0..<8).map { _ in Worker() }

        let changed = NSCondition()
        var parts: [@Sendable () -> Void] = []

        init() {
            Thread.detachNewThread { [self] in
                while true { next()() }
            }
        }

        func start(_ part: @escaping @Sendable () -> Void) {
            changed.lock()
            parts.append(part)
            changed.signal()
            changed.unlock()
        }

        func next() -> @Sendable () -> Void {
            changed.lock()
            defer { changed.unlock() }
            while parts.isEmpty { changed.wait() }
            return parts.removeFirst()
        }
    }
}
";
