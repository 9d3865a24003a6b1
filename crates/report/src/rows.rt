// The rows of a session: one for each record, and `cut` where a record or its length is cut short.
ghost use Rattle.std.specs.Prelude.{◌≡◌};
ghost use Rattle.model.specs.Office.{row, cut_row, cutting};
ghost use Rattle.page.specs.Page.{Put};
ghost use Rattle.report.specs.Rows.{Rows};

use page::{put, put_all, put_decimal};

// A row: the record's place, a space, the answer.
fn put_row(out: &mut [u8], at: usize, place: usize, n: u32) -> usize
    ensures { Put (row place n) at out.old result out.new }
{
    let p = put_decimal(out, at, place);
    let s = put(out, p, b' ');
    let a = put_decimal(out, s, n as usize);
    put(out, a, b'\n')
}

// `cut`: a length or a record is cut short.
fn put_cut(out: &mut [u8], at: usize) -> usize
    ensures { Put cut_row at out.old result out.new }
{
    put_all(out, at, b"cut\n")
}

// All rows of a session, from a state area and an answer area on, and what its calls leave in both.
pub fn put_rows(
    line: &[u8],
    session: &[u8],
    area: &mut [u8],
    answer: &mut [u8],
    out: &mut [u8],
) -> usize
    ensures { Rows line.now (cutting 0 session.now) 0 area.old answer.old 0
        out.old result area.new answer.new out.new }
{
    let mut rest = session;
    let mut place: usize = 0;
    let mut end: usize = 0;
    while !rest.is_empty() {
        let Ok((n, from)) = varint::decode(rest, 0) else {
            return put_cut(out, end);
        };
        let Some((record, after)) = rest[from..].split_at_checked(n) else {
            return put_cut(out, end);
        };
        let refusal = gate::gate_operate(line, area, record, answer);
        place += 1;
        end = put_row(out, end, place, refusal);
        rest = after;
    }
    end
}
