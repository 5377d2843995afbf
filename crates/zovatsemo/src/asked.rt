//! The upgrade or the study that options ask for.
ghost use Rattle.std.specs.Prelude.{◌≡◌, IfSome};
ghost use Rattle.sched_defs.specs.SendTime.{IsRate};
ghost use Rattle.study.specs.Files.{HasLinkRate};
ghost use Rattle.zovatsemo.specs.Front.{measure, upgrade_asked, only_file, size_view, run_view, study_view, link_rate, linked, linked_through, directed, replayed, sized, study_by, study_asked};

use events_core::{MOST_OVERHEAD, MOST_RATE};
use front_defs::{Command, Options, Sizes, has_words};
use policy_text_defs::Edition;
use sched_defs::LinkRate;
use size_core::{Limits, Widths};
use study::{Drive, Measure, Study, View};

/// The latest edition of the language that the program reads.
pub const LATEST: Edition = Edition::Third;

/// Returns the limits and widths of `size`, on rank stores if `block`.
fn measure(block: bool, sizes: Sizes) -> Measure
    ensures { result ≡ measure block sizes }
{
    Measure {
        stores: block,
        limits: Limits {
            entries: sizes.entries,
            bits: sizes.bits,
        },
        widths: sizes.widths.map(|widths| Widths {
            rank: widths.rank,
            entry: widths.entry,
        }),
    }
}

/// Returns how sizes are written.
fn size_view(view: front_defs::View, wanted: Measure) -> View
    ensures { result ≡ size_view view wanted }
{
    match view {
        front_defs::View::Json => View::JsonSize(wanted),
        _ => View::Size(wanted),
    }
}

/// Returns how the outcomes of a run are written.
fn run_view(view: front_defs::View) -> View
    ensures { result ≡ run_view view }
{
    match view {
        front_defs::View::Report => View::Report,
        front_defs::View::Json => View::Json,
        front_defs::View::Summary => View::Summary,
        front_defs::View::JsonSummary => View::JsonSummary,
    }
}

/// Returns how the outcomes of a command are written.
fn view_of(command: Command, view: front_defs::View, wanted: Measure) -> View
    ensures { result ≡ study_view command view wanted }
{
    match command {
        Command::Size => size_view(view, wanted),
        _ => run_view(view),
    }
}

/// Returns a link of this many bytes per second that takes `overhead` bytes for each packet besides
/// its length, if both are in range.
fn link_rate(bytes: Option<u64>, overhead: u32) -> Option<LinkRate>
    ensures value { result ≡ link_rate bytes overhead }
    ensures range { IfSome result IsRate }
{
    let bytes = bytes?;
    if 1 <= bytes && bytes <= MOST_RATE && overhead <= MOST_OVERHEAD {
        Some(LinkRate { bytes, overhead })
    } else {
        None
    }
}

/// Returns the study of a policy and a capture, with or without a target between them, that a link
/// paces.
fn linked<'a>(files: &[&'a str], drive: Drive<'a>, view: View) -> Option<Study<'a>>
    requires rate { HasLinkRate drive }
    ensures value { result ≡ linked files.now drive.entry view }
    ensures rate { IfSome result (λ study. HasLinkRate study.drive) }
{
    match files {
        [policy, capture] => Some(Study {
            latest: LATEST,
            policy,
            target: None,
            capture,
            drive,
            view,
        }),
        [policy, target, capture] => Some(Study {
            latest: LATEST,
            policy,
            target: Some(target),
            capture,
            drive,
            view,
        }),
        _ => None,
    }
}

/// Returns the study of a policy and a capture that a script paces.
fn directed<'a>(files: &[&'a str], view: View) -> Option<Study<'a>>
    ensures value { result ≡ directed files.now view }
    ensures rate { IfSome result (λ study. HasLinkRate study.drive) }
{
    match files {
        [policy, capture, script] => Some(Study {
            latest: LATEST,
            policy,
            target: None,
            capture,
            drive: Drive::Script(script),
            view,
        }),
        _ => None,
    }
}

/// Returns the study of a policy, a target and a capture that a script paces.
fn replayed<'a>(files: &[&'a str], view: View) -> Option<Study<'a>>
    ensures value { result ≡ replayed files.now view }
    ensures rate { IfSome result (λ study. HasLinkRate study.drive) }
{
    match files {
        [policy, target, capture, script] => Some(Study {
            latest: LATEST,
            policy,
            target: Some(target),
            capture,
            drive: Drive::Script(script),
            view,
        }),
        _ => None,
    }
}

/// Returns the study of a policy, a target and a capture that a link paces.
fn linked_through<'a>(files: &[&'a str], rate: LinkRate, view: View) -> Option<Study<'a>>
    requires range { IsRate rate }
    ensures value { result ≡ linked_through files.now rate view }
    ensures rate { IfSome result (λ study. HasLinkRate study.drive) }
{
    match files {
        [policy, through, capture] => Some(Study {
            latest: LATEST,
            policy,
            target: Some(through),
            capture,
            drive: Drive::Link(rate),
            view,
        }),
        _ => None,
    }
}

/// Returns the study of `size` with these files. A link paces it if there is one, and otherwise a
/// script.
fn sized<'a>(files: &[&'a str], rate: Option<LinkRate>, view: View) -> Option<Study<'a>>
    requires range { IfSome rate IsRate }
    ensures value { result ≡ sized files.now rate view }
    ensures rate { IfSome result (λ study. HasLinkRate study.drive) }
{
    match rate {
        Some(rate) => linked_through(files, rate, view),
        None => replayed(files, view),
    }
}

/// Returns the study of a command with these files, and with this link if it has one.
fn study_by<'a>(
    command: Command,
    files: &[&'a str],
    rate: Option<LinkRate>,
    view: View,
) -> Option<Study<'a>>
    requires range { IfSome rate IsRate }
    ensures value { result ≡ study_by command files.now rate view }
    ensures rate { IfSome result (λ study. HasLinkRate study.drive) }
{
    match command {
        Command::Direct => directed(files, view),
        Command::Replay => replayed(files, view),
        Command::Link => {
            let rate = rate?;
            linked(files, Drive::Link(rate), view)
        }
        Command::Forward => {
            let rate = rate?;
            linked(files, Drive::Forward(rate), view)
        }
        Command::Size => sized(files, rate, view),
        _ => None,
    }
}

/// Returns the study that the options ask for, or none if the replayer has arguments for them.
pub fn study_asked<'a>(options: &Options<'a>) -> Option<Study<'a>>
    ensures value { result ≡ study_asked options.now }
    ensures rate { IfSome result (λ study. HasLinkRate study.drive) }
{
    if has_words(options) {
        return None;
    }
    study_by(
        options.command,
        &options.files,
        link_rate(options.rate, options.overhead),
        view_of(
            options.command,
            options.view,
            measure(options.block, options.sizes),
        ),
    )
}

/// Returns the only file, if there is exactly one.
fn only_file<'a>(files: &[&'a str]) -> Option<&'a str>
    ensures { result ≡ only_file files.now }
{
    match files {
        [file] => Some(file),
        _ => None,
    }
}

/// Returns the policy that the options ask to write as one of version 3, or none if they don't.
pub fn upgrade_asked<'a>(options: &Options<'a>) -> Option<&'a str>
    ensures { result ≡ upgrade_asked options.now }
{
    if options.upgrade {
        only_file(&options.files)
    } else {
        None
    }
}
