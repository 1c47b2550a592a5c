// The printing program as a function: the bytes that it reads in, the bytes that it prints out.
#![tactic(auto)]

ghost use Rattle.std.specs.Prelude.{[], ◌≡◌, length};
ghost use Rattle.law.specs.Report.{printed, report_answer, report_room};
ghost use Rattle.refusal.specs.Shown.{answered};

pub mod print;

use line::page::Page;
use line::read::line_at;
use print::print_run;
use refusal::Refusal;
use table::WIDTH;
use text::read::read;

// All that is printed, on an empty page that has room for every answer.
fn print_all(input: &[u8], page: &mut Page<5632>)
    requires { page.old ≡ [] }
    ensures { page.new ≡ printed input.now }
{
    let line = match line_at(input, 0, b"ticks=") {
        Ok(line) => line,
        Err(fault) => return page.put_refusal(Refusal::Text(fault.place as u64), 0),
    };
    let mut words = [0u32; 224];
    match read(&input[line.next..], &mut words) {
        Ok(rows) => print_run(page, &words[..rows * WIDTH], line.value as u32),
        Err(r) => page.put_refusal(r, line.next as u64),
    }
}

// What the printing program prints for an input of any length, in the first bytes of a lent room: its length, or that
// the room is too short for it.
#[tactic(auto, unfolding(law::specs::Report::report_answer, law::specs::Report::report_room))]
pub fn report(input: &[u8], room: &mut [u8]) -> Result<usize, Refusal>
    ensures answer { answered result ≡ report_answer input.now (length room.old) }
    ensures room { room.new ≡ report_room input.now room.old }
{
    let mut page = Page::new();
    print_all(input, &mut page);
    page.write_into(room)
}
