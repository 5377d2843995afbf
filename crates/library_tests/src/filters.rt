//! Classes of the third edition.
use policy_text::{Edition, parse_to, print};
use std::alloc::Global;
use std::test::Fail;

/// Returns the canonical text of a text of version 3, or the number of the line in error.
fn printed(alloc: Global, line: &str) -> Result<String, u32> {
    let Ok(text) = String::format(alloc, format_args!("policy 3\n{line}\n")) else {
        return Err(0);
    };
    let lines = match parse_to(alloc, text.as_bytes(), Edition::Third) {
        Ok(lines) => lines,
        Err(fault) => return Err(fault.line()),
    };
    let Ok(text) = print(alloc, &lines) else {
        return Err(0);
    };
    let Ok(text) = str::from_utf8(text.as_slice()) else {
        return Err(0);
    };
    String::format(alloc, text).map_err(|_| 0)
}

/// Each form of a condition, and its canonical text.
static LINES: [(&str, &str); 19] = [
    ("class a", "class a"),
    (
        "class a-b prio 1 when vlan 7",
        "class a-b prio 1 when vlan 7",
    ),
    ("class a when dport 80..80", "class a when dport 80"),
    (
        "class a when dport {8000 .. 8099,80,443}",
        "class a when dport {8000..8099, 80, 443}",
    ),
    ("class a when dport { 80 }", "class a when dport 80"),
    (
        "class a when proto {tcp, udp, icmp, 47}",
        "class a when proto {6, 17, 1, 47}",
    ),
    ("class a when proto tcp", "class a when proto 6"),
    (
        "class a when not ipv4 and dscp 0..63 or len 0..99",
        "class a when not ipv4 and dscp 0..63 or len 0..99",
    ),
    (
        "class a when pcp 7 or ethertype {2054, 65535} or not sport 1",
        "class a when pcp 7 or ethertype {2054, 65535} or not sport 1",
    ),
    (
        "class a when src 10.1.2.3 and dst 10.9.0.0/16",
        "class a when src 10.1.2.3/32 and dst 10.9.0.0/16",
    ),
    (
        "class a when src 2001:DB8:0:0:0:0:0:1",
        "class a when src 2001:db8::1/128",
    ),
    (
        "class a when not dst 2001:db8::/32",
        "class a when not dst 2001:db8::/32",
    ),
    ("class a when dst ::/0", "class a when dst ::/0"),
    ("class a when dst ::1 / 128", "class a when dst ::1/128"),
    (
        "class a when src ::ffff:a00:1",
        "class a when src ::ffff:a00:1/128",
    ),
    (
        "class a when src 1:0:0:2:0:0:0:3",
        "class a when src 1:0:0:2::3/128",
    ),
    (
        "class a when tcpflags ack + syn / syn+ack+fin",
        "class a when tcpflags syn+ack/fin+syn+ack",
    ),
    (
        "class a when tcpflags none/cwr+ece+urg+ack+psh+rst+syn+fin",
        "class a when tcpflags none/fin+syn+rst+psh+ack+urg+ece+cwr",
    ),
    (
        "class a when tcpflags none/none and ipv6",
        "class a when tcpflags none/none and ipv6",
    ),
];

/// Conditions are printed in one way.
#[test]
fn conditions_are_printed_in_one_way(rt: HostRuntime) -> Result<(), Fail> {
    for (line, want) in LINES {
        let text = printed(rt.alloc(), line);
        assert!(rt; text.is_ok());
        if let Ok(text) = text {
            let rest = text.as_str().strip_prefix("policy 3\n").unwrap_or("");
            assert_eq!(rt; rest.strip_suffix("\n").unwrap_or(""), want);
        }
    }
    Ok(())
}

/// Lines that are malformed.
#[test]
fn malformed_conditions_are_rejected(rt: HostRuntime) -> Result<(), Fail> {
    let table = [
        "class a when",
        "class a when dport {}",
        "class a when dport {80,}",
        "class a when dport {,80}",
        "class a when dport {80",
        "class a when dport 80, 443",
        "class a when dport 81..80",
        "class a when dport {443, 81..80}",
        "class a when dport 65536",
        "class a when dport tcp",
        "class a when dport 80-81",
        "class a when pcp 8",
        "class a when ethertype 65536",
        "class a when proto gre",
        "class a when proto 256",
        "class a when tcpflags syn",
        "class a when tcpflags syn/syn+syn",
        "class a when tcpflags syn+none/syn",
        "class a when tcpflags syn/ack",
        "class a when tcpflags SYN/syn",
        "class a when src ::/129",
        "class a when src 10.0.0.0/33",
        "class a when src :::",
        "class a when src 1:2",
        "class a when src 1::2::3",
        "class a when src ::10000",
        "class a when src ::1.2.3.4",
        "class a when not not ipv4",
        "class a when ipv4 and",
        "class a when ipv4 or",
        "class a when or ipv4",
        "class a when ipv4 ipv6",
        "class pcp",
        "class a when (ipv4)",
    ];
    for line in table {
        assert_eq!(rt; printed(rt.alloc(), line).err(), Some(2));
    }
    Ok(())
}

/// A classic text has neither the words nor the marks.
#[test]
fn classic_texts_have_no_tests(rt: HostRuntime) -> Result<(), Fail> {
    let table: [&[u8]; 5] = [
        b"class a when not ipv4\n",
        b"class a when ipv4 or ipv6\n",
        b"class a when dport {80, 443}\n",
        b"class a when pcp 1\n",
        b"class a when src ::1\n",
    ];
    for text in table {
        let fault = parse_to(rt.alloc(), text, Edition::Third).err();
        assert_eq!(rt; fault.map(|fault| fault.code()), Some(23));
    }
    Ok(())
}
