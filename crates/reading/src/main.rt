// Read and Write on texts and tables, good and bad, a row for each; and each leaves the lent slice as it was where it refuses. What is to
// come out stands in the file `stdout` and follows from documents 01 and 02.
#![tactic(auto)]

mod books;
mod lines;
mod rows;
mod tables;

use std::io;

fn main(rt: HostRuntime) -> io::Result<()> {
    let rt = &rt;
    books::small(rt)?;
    books::limits(rt)?;
    lines::whole(rt)?;
    lines::letters(rt)?;
    lines::lengths(rt)?;
    lines::editions(rt)?;
    lines::strays(rt)?;
    lines::gaps(rt)?;
    lines::zeros(rt)?;
    lines::misspelt(rt)?;
    lines::ranges(rt)?;
    lines::overs(rt)?;
    lines::alternative_overs(rt)?;
    lines::conditional_overs(rt)?;
    lines::heads(rt)?;
    lines::alternative_heads(rt)?;
    lines::totals(rt)?;
    lines::lent(rt)?;
    tables::good(rt)?;
    tables::few(rt)?;
    tables::counts(rt)?;
    tables::lines(rt)?;
    tables::alternative_lines(rt)?;
    tables::conditional_lines(rt)?;
    tables::lent(rt)
}
