// Grids over a kind from outside.
use crate::Modular;
use grid::grid::Grid;
use grid::record::Record;
use points::refusal::Refusal;
use reading::layer::{Layer, ReadRefusal};
use reading::reader::read;
use store::{Entry, Store};

const TEXT: &[u8] =
    b"(grid 1)\n(unit kelvin)\n(point (64) 8)\n(point (32) 5)\n(point (96) 7)\n(point (16) 4)\n(point (48) 7)\n(end)\n";

// 21 / 4 is 250,006 modulo 1,000,003, since four times that is 1,000,024.
#[test]
fn integrates_over_an_outside_kind(rt: HostRuntime) {
    let mut records: [Record<Modular>; 8] = [Record::blank(); 8];
    let mut entries = [Entry::blank(); 8];
    let mut store = Store::new(0, &mut records, &mut entries);
    let mut grid = Grid::new(1, 1, 1, &mut store);
    assert_eq!(rt; read(TEXT, &mut grid), Ok(5));
    assert_eq!(rt; grid.integral().count % 1_000_003, 250_006);
}

#[test]
fn refuses_a_grid_that_does_not_suit_the_text(rt: HostRuntime) {
    let mut records: [Record<Modular>; 8] = [Record::blank(); 8];
    let mut entries = [Entry::blank(); 8];
    let mut store = Store::new(0, &mut records, &mut entries);
    let mut plane = Grid::new(2, 1, 1, &mut store);
    let other = ReadRefusal {
        refusal: Refusal::OtherDimensions,
        line: 1,
        byte: 0,
        layer: Layer::Grid,
    };
    assert_eq!(rt; read(TEXT, &mut plane), Err(other));
    let mut line = Grid::new(1, 1, 1, &mut store);
    assert_eq!(rt; read(TEXT, &mut line), Ok(5));
    let full = ReadRefusal {
        refusal: Refusal::GridNotEmpty,
        line: 0,
        byte: 0,
        layer: Layer::Grid,
    };
    assert_eq!(rt; read(TEXT, &mut line), Err(full));
    assert_eq!(rt; line.count(), 5);
}

#[test]
fn leaves_a_grid_empty_when_it_refuses_the_text(rt: HostRuntime) {
    let mut records: [Record<Modular>; 2] = [Record::blank(); 2];
    let mut entries = [Entry::blank(); 2];
    let mut store = Store::new(0, &mut records, &mut entries);
    let mut grid = Grid::new(1, 1, 1, &mut store);
    let full = ReadRefusal {
        refusal: Refusal::PlacesFull,
        line: 5,
        byte: 53,
        layer: Layer::Grid,
    };
    assert_eq!(rt; read(TEXT, &mut grid), Err(full));
    assert_eq!(rt; grid.count(), 0);
}
