//! Sizes whose text was worked out by hand.
use list_core::Name;
use size_core::{Limit, NodeSize, Overflow, Sizes, StoreUse, Widths, put_json, put_text};
use std::alloc::{AllocError, Global};
use std::test::Fail;

/// The text in pieces. Each node has a line, and the second one has a line of its stores.
const TEXT: [&str; 8] = [
    "node / root: at most 7 entries of 8 pushed; ",
    "greatest rank 9, 4 bits; greatest difference 3, 2 bits\n",
    "node /0/1 transit: at most 2 entries of 3 pushed; ",
    "greatest rank 1500, 11 bits; greatest difference 0, 0 bits\n",
    "  stores: at most 2 heads, 3 entries in a store, 1 spilled; 4 spills\n",
    "all nodes: at most 28 entries\n",
    "memory: 432 bits, for 16 bits of rank and 32 of entry\n",
    "limit passed: event 12, packet 7, node /0/1, by its rank bits\n",
];

const JSON: [&str; 7] = [
    "{\"nodes\":[{\"address\":[],\"serves\":\"root\",\"pushes\":8,\"entries\":7,",
    "\"rank\":9,\"rank_bits\":4,\"difference\":3,\"difference_bits\":2,\"stores\":null},",
    "{\"address\":[0,1],\"serves\":null,\"pushes\":3,\"entries\":2,",
    "\"rank\":1500,\"rank_bits\":11,\"difference\":0,\"difference_bits\":0,",
    "\"stores\":{\"heads\":2,\"entries\":3,\"spilled\":1,\"spills\":4}}],",
    "\"entries\":28,\"memory\":432,",
    "\"passed\":{\"event\":12,\"packet\":7,\"address\":[0,1],\"limit\":\"rank_bits\"}}\n",
];

fn joined(alloc: Global, pieces: &[&str]) -> Result<Vec<u8>, AllocError> {
    let mut text = Vec::new(alloc);
    for piece in pieces {
        text.extend_from_slice(piece.as_bytes())?;
    }
    Ok(text)
}

fn nodes(alloc: Global) -> Result<Vec<NodeSize>, AllocError> {
    let mut nodes = Vec::new(alloc);
    let name = Name::new(alloc, "root")?;
    nodes.push(NodeSize {
        address: Vec::new(alloc),
        name: Some(name),
        pushes: 8,
        most: 7,
        top: 9,
        span: 3,
        stores: None,
    })?;
    let address = Vec::from_array(alloc, [0, 1])?;
    nodes.push(NodeSize {
        address,
        name: None,
        pushes: 3,
        most: 2,
        top: 1500,
        span: 0,
        stores: Some(StoreUse {
            heads: 2,
            stored: 3,
            spilled: 1,
            spills: 4,
        }),
    })?;
    Ok(nodes)
}

#[test]
fn sizes_are_printed(rt: HostRuntime) -> Result<(), Fail> {
    let address = Vec::from_array(rt.alloc(), [0, 1])?;
    let nodes = nodes(rt.alloc())?;
    let sizes = Sizes {
        nodes,
        entries: 28,
        overflow: Some(Overflow {
            event: 12,
            packet: 7,
            address,
            limit: Limit::Bits,
        }),
    };
    let widths = Some(Widths {
        rank: 16,
        entry: 32,
    });
    let text = put_text(rt.alloc(), &sizes, widths)?;
    let expected = joined(rt.alloc(), &TEXT)?;
    assert_eq!(rt; text.as_slice(), expected.as_slice());
    let json = put_json(rt.alloc(), &sizes, widths)?;
    let expected = joined(rt.alloc(), &JSON)?;
    assert_eq!(rt; json.as_slice(), expected.as_slice());
    Ok(())
}
