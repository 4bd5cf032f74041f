//! How much a window keeps.
use echo_window::{Forgotten, FrameText, Origin, PlaceSet, Record, Window};
use std::alloc::Global;
use std::test::Fail;

/// The places up to 9.
fn nine_places() -> PlaceSet {
    let mut places = PlaceSet::new();
    for place in 0..10 {
        places.add(place);
    }
    places
}

/// Shows a window a frame that begins with a number, that of its record, all at one moment. What is no echo came in.
fn show(window: &mut Window, place: u8, number: u32, rest: &[u8]) -> Option<Origin> {
    let octets = number.to_be_bytes();
    let record = Record {
        place,
        number: u64::from(number),
        moment: 7,
        frame: &FrameText::new(&octets, rest),
        awaited: &nine_places(),
    };
    let met = window.meet(&record);
    if met.is_none() {
        window.enter(&record);
    }
    met
}

/// The record at place 1 that brought a frame of this number.
fn brought(number: u32) -> Option<Origin> {
    Some(Origin {
        place: 1,
        number: u64::from(number),
        moment: 7,
    })
}

/// Which record brought the first of so many frames, shown again at place 2 behind all others of place 1.
fn first_again(alloc: Global, count: u32, rest: &[u8]) -> Result<Option<Origin>, Fail> {
    let mut window = Window::new(alloc, 10)?;
    for number in 0..count {
        let _ = show(&mut window, 1, number, rest);
    }
    Ok(show(&mut window, 2, 0, rest))
}

#[test]
fn the_latest_4096_frames_are_kept(rt: HostRuntime) -> Result<(), Fail> {
    let rest = [0x55; 2];
    assert!(rt; first_again(rt.alloc(), 4096, &rest)? == brought(0));
    assert!(rt; first_again(rt.alloc(), 4097, &rest)?.is_none());
    Ok(())
}

#[test]
fn the_latest_4_mib_are_kept(rt: HostRuntime) -> Result<(), Fail> {
    let mut rest = Vec::new(rt.alloc());
    rest.resize(65_532, 0x55)?;
    assert!(rt; first_again(rt.alloc(), 64, rest.as_slice())? == brought(0));
    assert!(rt; first_again(rt.alloc(), 65, rest.as_slice())?.is_none());
    Ok(())
}

/// The first of some frames of place 1 of which place 2 isn't told its record.
fn first_lost(window: &mut Window, from: u32, to: u32, rest: &[u8]) -> Option<u32> {
    for number in from..to {
        if show(window, 2, number, rest) != brought(number) {
            return Some(number);
        }
    }
    None
}

/// Frames of 85,598 octets: 4 MiB end two octets behind the beginning of number 49.
#[test]
fn a_frame_in_which_the_room_ends_is_found(rt: HostRuntime) -> Result<(), Fail> {
    let mut rest = Vec::new(rt.alloc());
    rest.resize(85_594, 0x55)?;
    let mut window = Window::new(rt.alloc(), 10)?;
    for number in 0..52 {
        let _ = show(&mut window, 1, number, rest.as_slice());
    }
    assert!(rt; first_lost(&mut window, 47, 52, rest.as_slice()).is_none());
    Ok(())
}

/// What a window forgot behind so many frames, a nanosecond apart.
fn forgotten_behind(alloc: Global, within: u64, count: u32) -> Result<Forgotten, Fail> {
    let mut window = Window::new(alloc, within)?;
    for number in 0..count {
        let octets = number.to_be_bytes();
        let record = Record {
            place: 1,
            number: 1,
            moment: u64::from(number),
            frame: &FrameText::new(&octets, &[]),
            awaited: &nine_places(),
        };
        window.enter(&record);
    }
    Ok(window.forgotten())
}

/// So many frames, of which the youngest that went was so old.
fn went(count: u64, least_age: Option<u64>) -> Forgotten {
    Forgotten { count, least_age }
}

#[test]
fn what_goes_for_want_of_room_is_counted(rt: HostRuntime) -> Result<(), Fail> {
    assert!(rt; forgotten_behind(rt.alloc(), 10_000, 4096)? == went(0, None));
    assert!(rt; forgotten_behind(rt.alloc(), 10_000, 4099)? == went(3, Some(4096)));
    // An echo of the first could still come in the nanosecond of the last, or no more.
    assert!(rt; forgotten_behind(rt.alloc(), 4096, 4097)? == went(1, Some(4096)));
    assert!(rt; forgotten_behind(rt.alloc(), 4095, 4097)? == went(0, None));
    Ok(())
}

/// What a window forgot behind so many frames, each awaited at place 2 alone, of which the first was met there.
fn forgotten_behind_met(alloc: Global, count: u32) -> Result<Forgotten, Fail> {
    let mut window = Window::new(alloc, 10)?;
    let mut second = PlaceSet::new();
    second.add(2);
    for number in 0..count {
        let octets = number.to_be_bytes();
        let frame = FrameText::new(&octets, &[]);
        let came = Record {
            place: 1,
            number: 1,
            moment: 7,
            frame: &frame,
            awaited: &second,
        };
        window.enter(&came);
        if number == 0 {
            let _ = window.meet(&Record {
                place: 2,
                number: 1,
                moment: 7,
                frame: &frame,
                awaited: &second,
            });
        }
    }
    Ok(window.forgotten())
}

#[test]
fn a_frame_that_was_met_everywhere_is_not_counted(rt: HostRuntime) -> Result<(), Fail> {
    assert!(rt; forgotten_behind_met(rt.alloc(), 4097)? == went(0, None));
    assert!(rt; forgotten_behind_met(rt.alloc(), 4098)? == went(1, Some(0)));
    Ok(())
}

#[test]
fn a_frame_that_fits_nowhere_is_counted(rt: HostRuntime) -> Result<(), Fail> {
    let mut rest = Vec::new(rt.alloc());
    rest.resize(4_194_301, 0x55)?;
    let mut window = Window::new(rt.alloc(), 10)?;
    let _ = show(&mut window, 1, 0, &[]);
    assert!(rt; show(&mut window, 2, 0, rest.as_slice()).is_none());
    assert!(rt; window.forgotten() == went(2, Some(0)));
    Ok(())
}

#[test]
fn a_frame_is_awaited_at_its_places_alone(rt: HostRuntime) -> Result<(), Fail> {
    let mut window = Window::new(rt.alloc(), 10)?;
    let _ = show(&mut window, 1, 0, &[]);
    assert!(rt; show(&mut window, 10, 0, &[]).is_none());
    assert!(rt; show(&mut window, 9, 0, &[]) == brought(0));
    Ok(())
}
