// The lines of the answers that are more than accepted or refused: a cell, a report, an ask's preview, an outlook.
#![tactic(auto)]

use rules::{CellView, LapsesLeft, Millis, Outlook, Preview, Report, Steps, Ticket};
use std::fmt;

// A best quote's price, or that there is none.
#[derive(Clone, Copy)]
struct Best(Option<Steps>);

impl fmt::Display for Best {
    fn fmt<W: fmt::Write>(&self, f: &mut fmt::Formatter<W>) -> fmt::Result {
        match self.0 {
            None => write!(f, "absent"),
            Some(p) => write!(f, "{}", p.0),
        }
    }
}

// A time, or that there is none.
#[derive(Clone, Copy)]
struct Until(Option<Millis>);

impl fmt::Display for Until {
    fn fmt<W: fmt::Write>(&self, f: &mut fmt::Formatter<W>) -> fmt::Result {
        match self.0 {
            None => write!(f, "never"),
            Some(t) => write!(f, "{}", t.0),
        }
    }
}

// A limit of lapses; 65,535 is none.
#[derive(Clone, Copy)]
struct Limit(u32);

impl fmt::Display for Limit {
    fn fmt<W: fmt::Write>(&self, f: &mut fmt::Formatter<W>) -> fmt::Result {
        let n = self.0;
        if n == 65535 {
            write!(f, "none")
        } else {
            write!(f, "{n}")
        }
    }
}

#[derive(Clone, Copy)]
struct Left(LapsesLeft);

impl fmt::Display for Left {
    fn fmt<W: fmt::Write>(&self, f: &mut fmt::Formatter<W>) -> fmt::Result {
        match self.0 {
            LapsesLeft::Unlimited => write!(f, "none"),
            LapsesLeft::Over => write!(f, "over"),
            LapsesLeft::Left(n) => write!(f, "{n}"),
        }
    }
}

fn yes_or_no(is: bool) -> &'static str {
    if is { "yes" } else { "no" }
}

#[derive(Clone, Copy)]
pub struct CellLine(pub CellView);

impl fmt::Display for CellLine {
    fn fmt<W: fmt::Write>(&self, f: &mut fmt::Formatter<W>) -> fmt::Result {
        let view = self.0;
        let cell = view.cell;
        let verdict = if view.met { "met" } else { "failed" };
        write!(
            f,
            "cell kept {} of {} share {}",
            cell.kept.0, cell.length.0, cell.share
        )?;
        write!(f, " lapses {} limit {}", cell.lapses, Limit(cell.allowed))?;
        write!(f, " active {} passive {}", cell.active.0, cell.passive.0)?;
        write!(f, " verdict {verdict} weight {}", view.weight)
    }
}

#[derive(Clone, Copy)]
pub struct ReportLine(pub Report);

impl fmt::Display for ReportLine {
    fn fmt<W: fmt::Write>(&self, f: &mut fmt::Formatter<W>) -> fmt::Result {
        let report = self.0;
        write!(
            f,
            "report open {} time {}",
            yes_or_no(report.running),
            report.time.0
        )?;
        write!(
            f,
            " orders {} bid {} ask {}",
            report.orders,
            Best(report.bid),
            Best(report.ask)
        )?;
        write!(f, " kept {} lapses {} failed", report.kept.0, report.lapses)?;
        for count in report.failures {
            write!(f, " {count}")?;
        }
        write!(f, " fee {}", report.fee.0)
    }
}

#[derive(Clone, Copy)]
struct Amendment(Ticket);

impl fmt::Display for Amendment {
    fn fmt<W: fmt::Write>(&self, f: &mut fmt::Formatter<W>) -> fmt::Result {
        let ticket = self.0;
        let a = ticket.amendment;
        write!(
            f,
            "{} {} {} {} count {}",
            a.t.0, a.id, a.price.0, a.volume.0, ticket.count
        )
    }
}

#[derive(Clone, Copy)]
pub struct AskedLine(pub Preview);

impl fmt::Display for AskedLine {
    fn fmt<W: fmt::Write>(&self, f: &mut fmt::Formatter<W>) -> fmt::Result {
        let preview = self.0;
        write!(
            f,
            "asked bid {} ask {}",
            Best(preview.bid),
            Best(preview.ask)
        )?;
        write!(f, " ticket {}", Amendment(preview.ticket))
    }
}

#[derive(Clone, Copy)]
pub struct OutlookLine(pub Outlook);

impl fmt::Display for OutlookLine {
    fn fmt<W: fmt::Write>(&self, f: &mut fmt::Formatter<W>) -> fmt::Result {
        let outlook = self.0;
        write!(f, "outlook need {} left {}", outlook.need.0, outlook.left.0)?;
        write!(f, " by {} full {}", Until(outlook.by), Until(outlook.full))?;
        write!(f, " lapses {}", Left(outlook.lapses))?;
        write!(
            f,
            " rest {} lost {}",
            yes_or_no(outlook.rest),
            yes_or_no(outlook.lost)
        )?;
        write!(f, " weight {} {}", outlook.resting, outlook.keeping)
    }
}
