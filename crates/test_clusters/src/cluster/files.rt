//! Cluster files, and their plans.

use pm_plan::Plan;
use pm_scene::read_scene;
use std::alloc::Global;
use std::process::Abort;

/// The plan of a file.
pub fn plan_of<R: Abort>(rt: &R, alloc: Global, file: &str) -> Plan {
    read_scene(alloc, file.as_bytes()).expect(rt, "a plan")
}

/// A load of 100 watts.
pub const LONE: &str =
    r#"{"version":1,"basis":{"min":0,"max":9,"steps":10},"nodes":[{"name":"load1","kind":"load","parent":"auctioneer","start":100}],"phases":[{"events":[{"join":"load1"}]}]}"#;

/// The load joins, leaves and joins again.
pub const REJOINS: &str =
    r#"{"version":1,"basis":{"min":0,"max":9,"steps":10},"nodes":[{"name":"load1","kind":"load","parent":"auctioneer","start":100}],"phases":[{"events":[{"join":"load1"},{"leave":"load1"},{"join":"load1"}]}]}"#;

/// The load under a concentrator.
pub const UNDER: &str =
    r#"{"version":1,"basis":{"min":0,"max":9,"steps":10},"nodes":[{"name":"c1","kind":"concentrator","parent":"auctioneer"},{"name":"load1","kind":"load","parent":"c1","start":100}],"phases":[{"events":[{"join":"load1"}]}]}"#;

/// The load under a concentrator, which is set to 101 to 108 watts after its join.
pub const NINE_CHANGES: &str =
    r#"{"version":1,"basis":{"min":0,"max":9,"steps":10},"nodes":[{"name":"c1","kind":"concentrator","parent":"auctioneer"},{"name":"d","kind":"load","parent":"c1","start":100}],"phases":[{"events":[{"join":"d"},{"state":"d","value":101},{"state":"d","value":102},{"state":"d","value":103},{"state":"d","value":104},{"state":"d","value":105},{"state":"d","value":106},{"state":"d","value":107},{"state":"d","value":108}]}]}"#;

/// A manual load of 100 watts, and a manual generator of 150 watts from price 4 on.
pub const TWO_BIDS: &str =
    r#"{"version":1,"basis":{"min":0,"max":9,"steps":10},"nodes":[{"name":"load1","kind":"manual","parent":"auctioneer","demand":[100,100,100,100,100,100,100,100,100,100]},{"name":"gen1","kind":"manual","parent":"auctioneer","demand":[0,0,0,0,-150,-150,-150,-150,-150,-150]}],"phases":[{"events":[{"join":"load1"},{"join":"gen1"}]}]}"#;

/// The same load under a concentrator, and the generator beside it.
pub const BESIDE: &str =
    r#"{"version":1,"basis":{"min":0,"max":9,"steps":10},"nodes":[{"name":"c1","kind":"concentrator","parent":"auctioneer"},{"name":"a","kind":"manual","parent":"c1","demand":[100,100,100,100,100,100,100,100,100,100]},{"name":"gen1","kind":"manual","parent":"auctioneer","demand":[0,0,0,0,-150,-150,-150,-150,-150,-150]}],"phases":[{"events":[{"join":"a"},{"join":"gen1"}]}]}"#;

/// Nine devices of 1 watt under one concentrator.
pub const NINE: &str = r#"{"version":1,"basis":{"min":0,"max":9,"steps":10},"nodes":[
{"name":"c1","kind":"concentrator","parent":"auctioneer"},
{"name":"d2","kind":"manual","parent":"c1","demand":[1,1,1,1,1,1,1,1,1,1]},
{"name":"d3","kind":"manual","parent":"c1","demand":[1,1,1,1,1,1,1,1,1,1]},
{"name":"d4","kind":"manual","parent":"c1","demand":[1,1,1,1,1,1,1,1,1,1]},
{"name":"d5","kind":"manual","parent":"c1","demand":[1,1,1,1,1,1,1,1,1,1]},
{"name":"d6","kind":"manual","parent":"c1","demand":[1,1,1,1,1,1,1,1,1,1]},
{"name":"d7","kind":"manual","parent":"c1","demand":[1,1,1,1,1,1,1,1,1,1]},
{"name":"d8","kind":"manual","parent":"c1","demand":[1,1,1,1,1,1,1,1,1,1]},
{"name":"d9","kind":"manual","parent":"c1","demand":[1,1,1,1,1,1,1,1,1,1]},
{"name":"d10","kind":"manual","parent":"c1","demand":[1,1,1,1,1,1,1,1,1,1]}],"phases":[{"events":[
{"join":"d2"},{"join":"d3"},{"join":"d4"},{"join":"d5"},{"join":"d6"},{"join":"d7"},{"join":"d8"},{"join":"d9"},{"join":"d10"}]}]}"#;

/// Devices 3 to 11 are under concentrator 2, which is under concentrator 1 as device 12 is.
pub const TWO_LEVELS: &str = r#"{"version":1,"basis":{"min":0,"max":9,"steps":10},"nodes":[
{"name":"c1","kind":"concentrator","parent":"auctioneer"},
{"name":"c2","kind":"concentrator","parent":"c1"},
{"name":"d3","kind":"manual","parent":"c2","demand":[1,1,1,1,1,1,1,1,1,1]},
{"name":"d4","kind":"manual","parent":"c2","demand":[1,1,1,1,1,1,1,1,1,1]},
{"name":"d5","kind":"manual","parent":"c2","demand":[1,1,1,1,1,1,1,1,1,1]},
{"name":"d6","kind":"manual","parent":"c2","demand":[1,1,1,1,1,1,1,1,1,1]},
{"name":"d7","kind":"manual","parent":"c2","demand":[1,1,1,1,1,1,1,1,1,1]},
{"name":"d8","kind":"manual","parent":"c2","demand":[1,1,1,1,1,1,1,1,1,1]},
{"name":"d9","kind":"manual","parent":"c2","demand":[1,1,1,1,1,1,1,1,1,1]},
{"name":"d10","kind":"manual","parent":"c2","demand":[1,1,1,1,1,1,1,1,1,1]},
{"name":"d11","kind":"manual","parent":"c2","demand":[1,1,1,1,1,1,1,1,1,1]},
{"name":"d12","kind":"manual","parent":"c1","demand":[1,1,1,1,1,1,1,1,1,1]}],"phases":[{"events":[
{"join":"d3"},{"join":"d4"},{"join":"d5"},{"join":"d6"},{"join":"d7"},{"join":"d8"},{"join":"d9"},{"join":"d10"},{"join":"d11"},{"join":"d12"}]}]}"#;

/// A part that may take 150 watts, with two loads of 100 up to step 5; a generator of 150 beside it.
pub const CEILING: &str =
    r#"{"version":2,"basis":{"min":0,"max":9,"steps":10},"nodes":[{"name":"c1","kind":"limited","parent":"auctioneer","floor":0,"ceiling":150},{"name":"a","kind":"manual","parent":"c1","demand":[100,100,100,100,100,100,0,0,0,0]},{"name":"b","kind":"manual","parent":"c1","demand":[100,100,100,100,100,100,0,0,0,0]},{"name":"gen","kind":"manual","parent":"auctioneer","demand":[-150,-150,-150,-150,-150,-150,-150,-150,-150,-150]}],"phases":[{"events":[{"join":"a"},{"join":"b"},{"join":"gen"}]}]}"#;

/// A part that may deliver 100 watts and take 150, and the generator beside it. Its device takes 300 at step 0 and 50 less at
/// each further one.
pub const FLOOR: &str =
    r#"{"version":2,"basis":{"min":0,"max":9,"steps":10},"nodes":[{"name":"c1","kind":"limited","parent":"auctioneer","floor":-100,"ceiling":150},{"name":"flex1","kind":"manual","parent":"c1","points":[[0,300],[9,-150]]},{"name":"gen","kind":"manual","parent":"auctioneer","demand":[-150,-150,-150,-150,-150,-150,-150,-150,-150,-150]}],"phases":[{"events":[{"join":"flex1"},{"join":"gen"}]}]}"#;

/// The same part with a load of 400 watts beside it.
pub const BOTH_SIDES: &str =
    r#"{"version":2,"basis":{"min":0,"max":9,"steps":10},"nodes":[{"name":"c1","kind":"limited","parent":"auctioneer","floor":-100,"ceiling":150},{"name":"flex1","kind":"manual","parent":"c1","points":[[0,300],[9,-150]]},{"name":"load1","kind":"load","parent":"auctioneer","start":400}],"phases":[{"events":[{"join":"flex1"},{"join":"load1"}]}]}"#;

/// Every kind of device, under the auctioneer and under two concentrators, with ticks, joins, leaves and new states.
pub const VILLAGE: &str = r#"{"version":1,"basis":{"min":0,"max":99,"steps":100},
"nodes":[
{"name":"c1","kind":"concentrator","parent":"auctioneer"},
{"name":"c2","kind":"concentrator","parent":"c1"},
{"name":"freezer1","kind":"freezer","parent":"c2","low":-2200,"high":-1800,"power":200,"warm":30,"cool":80,"start":-2000},
{"name":"heat1","kind":"heat_pump","parent":"c2","low":1900,"high":2200,"power":1500,"loss":20,"gain":60,"start":2080},
{"name":"bat1","kind":"battery","parent":"c1","capacity":5000,"charge":1000,"discharge":1000,"spread":5,"start":2500},
{"name":"chp1","kind":"cogeneration","parent":"c1","low":5000,"high":8000,"power":2000,"loss":200,"gain":500,"start":6000},
{"name":"solar1","kind":"solar","parent":"c2","start":800},
{"name":"load1","kind":"load","parent":"c1","start":1200},
{"name":"flex","kind":"manual","parent":"auctioneer","points":[[20,600],[80,0]]},
{"name":"goal","kind":"objective","start":-1000}],
"phases":[
{"events":[{"join":"freezer1"},{"join":"heat1"},{"join":"bat1"},{"join":"chp1"},{"join":"solar1"},{"join":"load1"},{"join":"flex"}]},
{"tick":15},
{"events":[{"state":"solar1","value":300},{"join":"goal"}]},
{"tick":30},
{"events":[{"leave":"load1"},{"leave":"goal"},{"state":"flex","points":[[0,500],[99,-490]]}]}]}"#;
