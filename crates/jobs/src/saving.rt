//! A coordinator's state, saved and shown.
ghost use Rattle.std.specs.Prelude.{◌≡◌, ◌⊎◌, IfErr, IfOk, OnErr, OnOk, true};
ghost use Rattle.std.specs.Io.KnownBytes.{Appends};
ghost use Rattle.meaning.specs.Print.{report_text};
ghost use Rattle.partial_codec.specs.State.{state_bytes};
ghost use Rattle.gathering.specs.Report.{report_of_output, summary};
ghost use Rattle.folders.specs.Folder.{WritesOne};
ghost use Rattle.folders.specs.Refused.{IsTriedFor, IsUnwritten};
ghost use Rattle.jobs.specs.Gathering.{IsReported, IsReportRefused, IsSaved, IsSavedFirst, IsSaveLeft, IsSaveRefused, IsUnprinted, shown};

use command_line::GatherCommand;
use folders::{Folder, Refusal, write_file};
use gathering::{Ended, Gather, GatherFault, Report};
use meaning::Text;
use std::alloc::Global;
use std::io::Write;

fn write_state<F: Folder>(
    alloc: Global,
    folder: &mut F,
    gather: &Gather,
    path: &Text,
) -> Result<(), Refusal>
    ensures written { OnOk result
        (WritesOne path.now (λ bytes. bytes ≡ state_bytes gather.now.job gather.now.cells)
        (F.wrote folder.old) (F.wrote folder.new)) }
    ensures refused { IfErr result (IsUnwritten path.now) }
    ensures unwritten { IfErr result (IsTriedFor (F.tries folder.old)) }
    ensures left { OnErr result (F.wrote folder.new ≡ F.wrote folder.old) }
{
    match gather.state_bytes(alloc) {
        Ok(bytes) => write_file(folder, path, bytes.as_slice()),
        // Nothing else keeps a state from being spelled.
        Err(_) => Err(Refusal::Memory),
    }
}

fn save_state<F: Folder>(
    alloc: Global,
    folder: &mut F,
    gather: &Gather,
    save: &Option<Text>,
) -> Result<(), Refusal>
    ensures saved { OnOk result
        (IsSaved save.now (state_bytes gather.now.job gather.now.cells) (F.wrote folder.old)
        (F.wrote folder.new)) }
    ensures refused { IfErr result (IsSaveRefused save.now) }
    ensures unwritten { IfErr result (IsTriedFor (F.tries folder.old)) }
    ensures left { OnErr result (F.wrote folder.new ≡ F.wrote folder.old) }
{
    match save {
        Some(path) => write_state(alloc, folder, gather, path),
        None => Ok(()),
    }
}

fn report_of(ended: Ended) -> Report
    ensures { result ≡ report_of_output ended }
{
    match ended {
        Ended::Rows => Report::Rows,
        Ended::Fault => Report::Fault,
    }
}

fn print_preview<O: Write>(
    alloc: Global,
    gather: &Gather,
    out: &mut O,
) -> Result<Report, GatherFault>
    ensures printed { OnOk result (Appends (O.contents out.old) (O.contents out.new)
        (report_text gather.now.job.plan (shown true gather.now.job.plan gather.now.cells))) }
    ensures returned { IfOk result
        (λ r. r ≡ summary (shown true gather.now.job.plan gather.now.cells)) }
    ensures quiet { IfErr result (λ e. (e ≡ GatherFault.Writer)
        ⊎ (O.contents out.new ≡ O.contents out.old)) }
{
    let ended = gather.preview(alloc, out)?;
    Ok(report_of(ended))
}

// Prints the preview, where it is asked for, or else the report.
fn print_shown<O: Write>(
    alloc: Global,
    gather: &Gather,
    asked: bool,
    out: &mut O,
) -> Result<Report, GatherFault>
    ensures printed { OnOk result (Appends (O.contents out.old) (O.contents out.new)
        (report_text gather.now.job.plan (shown asked gather.now.job.plan gather.now.cells))) }
    ensures returned { IfOk result
        (λ r. r ≡ summary (shown asked gather.now.job.plan gather.now.cells)) }
    ensures quiet { IfErr result (λ e. (e ≡ GatherFault.Writer)
        ⊎ (O.contents out.new ≡ O.contents out.old)) }
{
    if asked {
        print_preview(alloc, gather, out)
    } else {
        gather.print_report(alloc, out)
    }
}

fn show<O: Write>(
    alloc: Global,
    gather: &Gather,
    asked: bool,
    out: &mut O,
) -> Result<Report, Refusal>
    ensures printed { OnOk result (Appends (O.contents out.old) (O.contents out.new)
        (report_text gather.now.job.plan (shown asked gather.now.job.plan gather.now.cells))) }
    ensures returned { IfOk result
        (λ r. r ≡ summary (shown asked gather.now.job.plan gather.now.cells)) }
    ensures refused { IfErr result IsUnprinted }
    ensures quiet { IfErr result (λ e. (e ≡ Refusal.CannotPrint)
        ⊎ (O.contents out.new ≡ O.contents out.old)) }
{
    match print_shown(alloc, gather, asked, out) {
        Ok(report) => Ok(report),
        Err(GatherFault::Writer) => Err(Refusal::CannotPrint),
        // Nothing else keeps a report or a preview from being found.
        Err(_) => Err(Refusal::Memory),
    }
}

/// Writes the state under the path `save`, if the command has one, and then prints the preview,
/// where the command asks for it, or else the report.
pub fn save_and_show<F: Folder, O: Write>(
    alloc: Global,
    folder: &mut F,
    gather: &Gather,
    command: &GatherCommand,
    out: &mut O,
) -> Result<Report, Refusal>
    ensures reported { IfOk result
        (IsReported gather.now command.now.save command.now.preview (O.contents out.old)
        (O.contents out.new) (F.wrote folder.old) (F.wrote folder.new)) }
    ensures refused { IfErr result (IsReportRefused command.now.save) }
    // Nothing is printed before the state is saved, and then only the output can fail.
    ensures quiet { IfErr result (λ e. (e ≡ Refusal.CannotPrint)
        ⊎ (O.contents out.new ≡ O.contents out.old)) }
    ensures left { OnErr result
        (IsSaveLeft command.now.save (state_bytes gather.now.job gather.now.cells)
        (F.wrote folder.old) (F.wrote folder.new)) }
    ensures saved { IfErr result
        (IsSavedFirst command.now.save (state_bytes gather.now.job gather.now.cells)
        (F.wrote folder.old) (F.wrote folder.new)) }
    ensures unwritten { IfErr result (IsTriedFor (F.tries folder.old)) }
{
    save_state(alloc, folder, gather, &command.save)?;
    show(alloc, gather, command.preview, out)
}
