//! The JSON lines of a run.
ghost use Rattle.std.specs.Prelude.{◌≡◌, ◌+◌, ◌≤◌, ◌++◌, length, decimal};
ghost use Rattle.text_core.specs.Tokens.{most_name};
ghost use Rattle.event_json.specs.Room.{line_room};
ghost use Rattle.event_json.specs.Objects.{packet_members, ranks_member, times_members, arrive_line, depart_line, drop_line, empty_line, end_line, fault_line};
ghost use Rattle.event_json.specs.Json.{json_end};

use crate::counts::Counts;
use crate::line::Line;
use crate::times::Times;
use packet_defs::{Departed, Packet};
use sched_defs::{Ending, PAST_LAST};

impl Line {
    /// Adds a text and the digits of a number after it.
    fn member(&mut self, name: &[u8], value: u64)
        requires name { length name.now ≤ 30 }
        requires room { length self.old + 50 ≤ line_room }
        ensures text { self.new ≡ self.old ++ name.now ++ decimal value }
        ensures short { length self.new ≤ length self.old + 50 }
    {
        self.text(name);
        self.number(value);
    }

    /// Adds the members of an event's packet.
    fn packet(&mut self, event: u64, packet: u64, leaf: &str, class: u32, len: u32)
        requires leaf { length leaf.now ≤ most_name }
        requires room { length self.old + 300 ≤ line_room }
        ensures text { self.new ≡ self.old ++ packet_members event packet leaf.now class len }
        ensures short { length self.new ≤ length self.old + 300 }
    {
        self.member(b",\"event\":", event);
        self.member(b",\"packet\":", packet);
        self.text(b",\"leaf\":\"");
        self.text(leaf.as_bytes());
        self.member(b"\",\"class\":", u64::from(class) + 1);
        self.member(b",\"bytes\":", u64::from(len));
    }

    /// Adds the ranks, from the root to the leaf.
    fn ranks(&mut self, ranks: &[u64])
        requires few { length ranks.now ≤ 65 }
        requires room { length self.old + 1376 ≤ line_room }
        ensures text { self.new ≡ self.old ++ ranks_member ranks.now }
        ensures short { length self.new ≤ length self.old + 1376 }
    {
        self.text(b",\"ranks\":[");
        self.numbers(ranks);
        self.text(b"]");
    }

    /// Adds the times on a link, if there is one.
    fn times(&mut self, times: Option<Times>)
        requires room { length self.old + 100 ≤ line_room }
        ensures text { self.new ≡ self.old ++ times_members times }
        ensures short { length self.new ≤ length self.old + 100 }
    {
        let Some(times) = times else {
            return;
        };
        self.text(b",\"start\":");
        self.wide(times.start);
        self.text(b",\"finish\":");
        self.wide(times.finish);
    }

    /// Writes the line of a packet that arrived, in place of the line before.
    pub fn arrival(&mut self, event: u64, packet: &Packet, leaf: &str, ranks: &[u64])
        requires leaf { length leaf.now ≤ most_name }
        requires few { length ranks.now ≤ 65 }
        ensures { let p = packet.now in self.new ≡
            arrive_line event p.number leaf.now p.class p.len p.moment ranks.now }
    {
        self.begin(b"{\"kind\":\"arrive\"");
        self.packet(event, packet.number, leaf, packet.class, packet.len);
        self.member(b",\"timestamp\":", packet.moment);
        self.ranks(ranks);
        self.text(b"}\n");
    }

    /// Writes the line of a packet that departed, in place of the line before.
    pub fn departure(
        &mut self,
        event: u64,
        departed: &Departed,
        leaf: &str,
        ranks: &[u64],
        times: Option<Times>,
    )
        requires leaf { length leaf.now ≤ most_name }
        requires few { length ranks.now ≤ 65 }
        ensures { let d = departed.now in self.new ≡
            depart_line event d.packet leaf.now d.class d.len ranks.now times }
    {
        self.begin(b"{\"kind\":\"depart\"");
        self.packet(event, departed.packet, leaf, departed.class, departed.len);
        self.ranks(ranks);
        self.times(times);
        self.text(b"}\n");
    }

    /// Writes the line of a packet that was dropped, in place of the line before.
    pub fn dropped(&mut self, event: u64, packet: &Packet, leaf: &str)
        requires leaf { length leaf.now ≤ most_name }
        ensures { let p = packet.now in self.new ≡
            drop_line event p.number leaf.now p.class p.len p.moment }
    {
        self.begin(b"{\"kind\":\"drop\"");
        self.packet(event, packet.number, leaf, packet.class, packet.len);
        self.member(b",\"timestamp\":", packet.moment);
        self.text(b"}\n");
    }

    /// Writes the line of a departure that found nothing to send, in place of the line before.
    pub fn empty(&mut self, event: u64)
        ensures { self.new ≡ empty_line event }
    {
        self.begin(b"{\"kind\":\"empty\",\"event\":");
        self.number(event);
        self.text(b"}\n");
    }

    /// Writes the line of a run's end, in place of the line before.
    fn end(
        &mut self,
        arrived: u64,
        departed: u64,
        dropped: u64,
        empty: u64,
        queued: u64,
        unread: u64,
    )
        ensures { self.new ≡ end_line arrived departed dropped empty queued unread }
    {
        self.begin(b"{\"kind\":\"end\"");
        self.member(b",\"arrived\":", arrived);
        self.member(b",\"departed\":", departed);
        self.member(b",\"dropped\":", dropped);
        self.member(b",\"empty\":", empty);
        self.member(b",\"queued\":", queued);
        self.member(b",\"unread\":", unread);
        self.text(b"}\n");
    }

    /// Writes the line of a rejected input, in place of the line before.
    fn fault(&mut self, input: &str, code: u32, place: u64)
        requires input { length input.now ≤ most_name }
        ensures { self.new ≡ fault_line input.now code place }
    {
        self.begin(b"{\"kind\":\"fault\",\"input\":\"");
        self.text(input.as_bytes());
        self.member(b"\",\"code\":", u64::from(code));
        self.member(b",\"place\":", place);
        self.text(b"}\n");
    }

    /// Writes the last line of a run, in place of the line before.
    pub fn ending(&mut self, counts: Counts, ending: Ending)
        ensures { self.new ≡ json_end counts ending }
    {
        let Counts {
            arrived,
            departed,
            dropped,
            empty,
        } = counts;
        match ending {
            Ending::Whole(unread) => {
                let queued = arrived.saturating_sub(departed);
                self.end(arrived, departed, dropped, empty, queued, unread);
            }
            Ending::BadCapture(code, place) => self.fault("capture", code, place),
            Ending::PastLast(event) => self.fault("script", PAST_LAST, event),
        }
    }
}
