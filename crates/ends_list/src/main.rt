// Reads a credentials file on standard input and prints how many ends it has, then each on a line; or `refused`, number, place, with what that
// means on standard error.
#![tactic(auto)]

fn print_ends<O: Print, E: Print>(out: &O, err: &E, file: &[u8]) {
    let none = withdrawals::none();
    let e = ends::ends_of(file, &none);
    if e.number != 0 {
        console::print_refusal(out, err, e.number, e.place);
        console::explain(err, file, e.number, e.place);
        return;
    }
    if !console::print_number(out, err, e.count) {
        return;
    }
    for x in e.ends.iter().take(e.count as usize) {
        if !console::print_number(out, err, *x) {
            return;
        }
    }
}

fn main(rt: HostRuntime) {
    let out = rt.stdout();
    let err = rt.stderr();
    if console::is_given(&rt, 1) {
        console::usage(
            &err,
            b"usage: rtt-ends < FILE\nFILE is a credentials file. Prints how many ends its periods have, then each.\n",
        );
        return;
    }
    let mut buffer = console::room();
    let input = console::read(&mut rt.stdin(), &err, &mut buffer);
    if input.failed {
        return;
    }
    let n = input.count;
    print_ends(&out, &err, &buffer[..n]);
}
