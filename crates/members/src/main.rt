// Reads a credentials file on standard input and prints how many memberships it has, then for each of their intervals a line of
// issuer, name, set, from, to; or `refused`, number, place, with what that means on standard error.
#![tactic(auto)]

use completing::Completed;

// Each function that prints says whether it could.

fn print_interval<O: Print, E: Print>(
    out: &O,
    err: &E,
    role: u32,
    set: u32,
    from: u32,
    to: u32,
) -> bool {
    console::write_line(out, err, &lines::interval_line(role, set, from, to))
}

fn print_membership<O: Print, E: Print>(
    out: &O,
    err: &E,
    file: &[u8],
    role: u32,
    set: u32,
    spans: u64,
) -> bool {
    let none = withdrawals::none();
    let v = ends::intervals_of(file, &none, spans);
    for x in v.intervals.iter().take(v.count as usize) {
        if !print_interval(out, err, role, set, x.from, x.to) {
            return false;
        }
    }
    true
}

fn print_table<O: Print, E: Print>(
    out: &O,
    err: &E,
    file: &[u8],
    roles: &[u32; 1024],
    sets: &[u32; 1024],
    spans: &[u64; 1024],
    count: usize,
) {
    for i in 0..count.min(1024) {
        if !print_membership(out, err, file, roles[i], sets[i], spans[i]) {
            return;
        }
    }
}

fn print_members<O: Print, E: Print>(out: &O, err: &E, file: &[u8]) {
    let mut roles = console::numbers32();
    let mut sets = console::numbers32();
    let mut spans = console::numbers64();
    let none = withdrawals::none();
    let answer = completing::complete(file, &none, &mut roles, &mut sets, &mut spans);
    match answer {
        Completed::Memberships(count) => {
            if console::print_number(out, err, count) {
                print_table(out, err, file, &roles, &sets, &spans, count as usize);
            }
        }
        Completed::Refused { number, place } => {
            console::print_refusal(out, err, number, place);
            console::explain(err, file, number, place);
        }
    }
}

fn main(rt: HostRuntime) {
    let out = rt.stdout();
    let err = rt.stderr();
    if console::is_given(&rt, 1) {
        console::usage(
            &err,
            b"usage: rtt-members < FILE\nFILE is a credentials file. Prints how many memberships it has, then each interval: issuer, name, set, from, to.\n",
        );
        return;
    }
    let mut buffer = console::room();
    let input = console::read(&mut rt.stdin(), &err, &mut buffer);
    if input.failed {
        return;
    }
    let n = input.count;
    print_members(&out, &err, &buffer[..n]);
}
