//! Results in the order of their jobs, and those that are not of all jobs.

use super::*;

/// The results of the jobs, each with its place as a part's number.
fn results<R: Abort>(rt: &R, alloc: Global, jobs: &[u64]) -> Vec<Done> {
    let mut dones = Vec::new(alloc);
    for (number, job) in jobs.iter().enumerate() {
        dones.push(done(*job, number as u64)).expect(rt, "memory");
    }
    dones
}

fn done(job: u64, number: u64) -> Done {
    let result = JobOutcome::At { pass: 0, number };
    Done { job, result }
}

/// The results of the jobs are put in the order of the jobs, where the numbers of their parts are these.
fn are_gathered<R: Abort>(rt: &R, alloc: Global, jobs: &[u64], numbers: &[u64]) {
    let gathered = gather(alloc, jobs.len() as u64, results(rt, alloc, jobs));
    let gathered = gathered.expect(rt, "results");
    assert_eq!(rt; gathered.len(), numbers.len());
    for (job, (result, number)) in gathered.iter().zip(numbers).enumerate() {
        assert_eq!(rt; *result, done(job as u64, *number));
    }
}

/// Jobs that results came of, and the numbers of their parts in the order of the jobs.
static ORDERS: [(&[u64], &[u64]); 3] = [(&[], &[]), (&[1, 0], &[1, 0]), (&[2, 0, 1], &[1, 2, 0])];

/// A thousand jobs come last, the last of them first. The numbers of their parts fall as well.
/// Tries: gather
#[test]
fn results_are_put_in_order(rt: HostRuntime) {
    for (jobs, numbers) in &ORDERS {
        are_gathered(&rt, rt.alloc(), jobs, numbers);
    }
    let mut jobs = Vec::new(rt.alloc());
    for job in 0..1000 {
        jobs.push(999_u64.wrapping_sub(job)).expect(&rt, "memory");
    }
    are_gathered(&rt, rt.alloc(), &jobs, &jobs);
}

/// How many jobs there are, those that results came of, and the fault with its number.
static FAULTS: [(u64, &[u64], &str); 6] = [
    (2, &[0, 0], "2 Double { job: 0 }"),
    (2, &[0, 5], "3 Stranger { job: 5 }"),
    (2, &[0], "1 Missing { job: 1 }"),
    (2, &[1, 1], "2 Double { job: 1 }"),
    (2, &[0, 5, 5], "3 Stranger { job: 5 }"),
    (3, &[2, 2, 7], "2 Double { job: 2 }"),
];

fn is_fault<R: Abort>(rt: &R, alloc: Global, fault: CrewFault, want: &str) {
    let number = fault.number();
    let text = format!(in alloc; "{number} {fault:?}").expect(rt, "memory");
    assert_eq!(rt; text.as_str(), want);
}

/// Tries: gather, CrewFault::number
#[test]
fn faults_have_numbers(rt: HostRuntime) {
    for (count, jobs, want) in &FAULTS {
        let gathered = gather(rt.alloc(), *count, results(&rt, rt.alloc(), jobs));
        is_fault(&rt, rt.alloc(), gathered.expect_err(&rt, "a fault"), want);
    }
    is_fault(&rt, rt.alloc(), CrewFault::NoMemory, "4 NoMemory");
}
