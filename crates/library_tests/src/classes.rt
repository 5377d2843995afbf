//! Test of the classification of single packets.
use packet_core::{Classifier, Fields, Header, no_extra};
use policy_core::Policy;
use std::test::Fail;

const NO_FIELDS: Fields = Fields {
    vlan: None,
    version: None,
    dscp: None,
    proto: None,
    source: None,
    target: None,
    sport: None,
    dport: None,
};

#[test]
fn a_packet_has_the_first_class_that_it_meets(rt: HostRuntime) -> Result<(), Fail> {
    let office = Policy::office(rt.alloc())?;
    let voice = Fields {
        dscp: Some(46),
        ..NO_FIELDS
    };
    let backup = Fields {
        version: Some(4),
        target: Some(0x0a09_0101),
        ..NO_FIELDS
    };
    let classifier = Classifier::new(rt.alloc(), &office)?;
    for (fields, class) in [(voice, 0), (backup, 6), (NO_FIELDS, 7)] {
        let header = Header {
            fields,
            extra: no_extra(),
        };
        assert_eq!(rt; classifier.class_of(&header, 100), class);
    }
    Ok(())
}
