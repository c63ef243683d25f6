// One line a case on standard output.
use std::io;

pub(crate) fn tell(rt: &impl Print, name: &str, is_right: bool) -> io::Result<()> {
    let answer = if is_right { "ok" } else { "WRONG" };
    println!(rt; "{name}: {answer}")
}

// A table of cases.
pub(crate) fn run<C: Copy, F: Fn(C) -> bool>(
    rt: &impl Print,
    cases: &[(&str, C)],
    is_right: F,
) -> io::Result<()>
    requires { F.IsAlwaysCallable is_right }
{
    for &(name, case) in cases {
        tell(rt, name, is_right(case))?;
    }
    Ok(())
}
