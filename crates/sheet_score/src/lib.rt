// RULES 3.4: a sheet is read once, worked line by line, and reported; sent back by 14, 10, 11, 12 or 13, in this order,
// and last by 15, for the report's length alone.
#![tactic(auto)]

ghost use Rattle.sheet_report.specs.Report.{ReportIs};
ghost use Rattle.sheet_read.specs.Form.{in_form};
ghost use Rattle.sheet_score.specs.Score.{report};

use door_limits::Limits;
use refusal::Refusal;
use sheet_read::read_sheet;
use sheet_report::write_report;
use sheet_weigh::weigh_sheet;

pub fn score(limits: Limits, text: &[u8], out: &mut [u8]) -> Result<usize, Refusal>
    ensures { ReportIs out.old out.new (report limits (in_form text.now)) result }
{
    let r = read_sheet(text);
    let o = weigh_sheet(limits, r);
    write_report(out, o)
}
