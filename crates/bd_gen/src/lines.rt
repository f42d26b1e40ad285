// The texts of each place, and of all in turn.
ghost use Rattle.std.specs.Prelude.{◌≡◌, ◌≤◌, ◌<◌, ◌++◌, OnOk};
ghost use Rattle.bd_gen.specs.Errands.{errand_lines, hub_roads, length_back, length_of, length_out, parcel_name, parcel_there, place_line, place_name, road_line, texts_to, wanted};

use crate::writing::push_titled;
use bd_base::NoMemory;

// The way from the hub to a place, and back.
fn length_of(i: u32) -> u32
    ensures { result ≡ length_of i }
{
    2 + i % 2
}

fn push_hub_roads(text: &mut Vec<u8>, i: u32) -> Result<(), NoMemory>
    ensures { OnOk result (text.new.items ≡ text.old.items ++ hub_roads i) }
{
    push_titled(text, b"(road l0 l", i)?;
    push_titled(text, b") (road l", i)?;
    text.extend_from_slice(b" l0)")?;
    Ok(())
}

fn push_length_out(text: &mut Vec<u8>, i: u32) -> Result<(), NoMemory>
    ensures { OnOk result (text.new.items ≡ text.old.items ++ length_out i) }
{
    push_titled(text, b" (= (len l0 l", i)?;
    push_titled(text, b") ", length_of(i))?;
    text.extend_from_slice(b")")?;
    Ok(())
}

fn push_length_back(text: &mut Vec<u8>, i: u32) -> Result<(), NoMemory>
    ensures { OnOk result (text.new.items ≡ text.old.items ++ length_back i) }
{
    push_titled(text, b" (= (len l", i)?;
    push_titled(text, b" l0) ", length_of(i))?;
    text.extend_from_slice(b")")?;
    Ok(())
}

fn push_parcel_there(text: &mut Vec<u8>, i: u32) -> Result<(), NoMemory>
    ensures { OnOk result (text.new.items ≡ text.old.items ++ parcel_there i) }
{
    push_titled(text, b" (lies p", i)?;
    push_titled(text, b" l", i)?;
    text.extend_from_slice(b")\n")?;
    Ok(())
}

fn push_place(text: &mut Vec<u8>, i: u32) -> Result<(), NoMemory>
    ensures { OnOk result (text.new.items ≡ text.old.items ++ place_line i) }
{
    push_hub_roads(text, i)?;
    push_length_out(text, i)?;
    push_length_back(text, i)?;
    push_parcel_there(text, i)
}

fn push_road(text: &mut Vec<u8>, i: u32) -> Result<(), NoMemory>
    requires { i < 600 }
    ensures { OnOk result (text.new.items ≡ text.old.items ++ road_line i) }
{
    push_titled(text, b"(road l", i)?;
    push_titled(text, b" l", i + 1)?;
    push_titled(text, b") (= (len l", i)?;
    push_titled(text, b" l", i + 1)?;
    text.extend_from_slice(b") 1)\n")?;
    Ok(())
}

fn push_wanted(text: &mut Vec<u8>, i: u32) -> Result<(), NoMemory>
    ensures { OnOk result (text.new.items ≡ text.old.items ++ wanted i) }
{
    push_titled(text, b" (have p", i)?;
    text.extend_from_slice(b")")?;
    Ok(())
}

fn push_errand(text: &mut Vec<u8>, i: u32) -> Result<(), NoMemory>
    ensures { OnOk result (text.new.items ≡ text.old.items ++ errand_lines i) }
{
    push_titled(text, b"(drive l0 l", i)?;
    push_titled(text, b")\n(get p", i)?;
    push_titled(text, b" l", i)?;
    push_titled(text, b")\n(drive l", i)?;
    text.extend_from_slice(b" l0)\n")?;
    Ok(())
}

/// The names of the places but the hub.
pub fn push_place_names(text: &mut Vec<u8>, n: u32) -> Result<(), NoMemory>
    ensures { OnOk result (text.new.items ≡ text.old.items ++ texts_to place_name n) }
{
    let mut i = 0;
    while i < n {
        i += 1;
        push_titled(text, b" l", i)?;
    }
    Ok(())
}

/// The names of the parcels.
pub fn push_parcel_names(text: &mut Vec<u8>, n: u32) -> Result<(), NoMemory>
    ensures { OnOk result (text.new.items ≡ text.old.items ++ texts_to parcel_name n) }
{
    let mut i = 0;
    while i < n {
        i += 1;
        push_titled(text, b" p", i)?;
    }
    Ok(())
}

/// The roads from and to the hub, and where the parcels lie.
pub fn push_places(text: &mut Vec<u8>, n: u32) -> Result<(), NoMemory>
    ensures { OnOk result (text.new.items ≡ text.old.items ++ texts_to place_line n) }
{
    let mut i = 0;
    while i < n {
        i += 1;
        push_place(text, i)?;
    }
    Ok(())
}

/// The roads from each place to the next one.
pub fn push_roads(text: &mut Vec<u8>, n: u32) -> Result<(), NoMemory>
    requires { n < 600 }
    ensures { OnOk result (text.new.items ≡ text.old.items ++ texts_to road_line n) }
{
    let mut i = 0;
    while i < n {
        i += 1;
        push_road(text, i)?;
    }
    Ok(())
}

/// What is wanted of the parcels.
pub fn push_all_wanted(text: &mut Vec<u8>, n: u32) -> Result<(), NoMemory>
    ensures { OnOk result (text.new.items ≡ text.old.items ++ texts_to wanted n) }
{
    let mut i = 0;
    while i < n {
        i += 1;
        push_wanted(text, i)?;
    }
    Ok(())
}

/// The steps of all errands.
pub fn push_errands(text: &mut Vec<u8>, n: u32) -> Result<(), NoMemory>
    ensures { OnOk result (text.new.items ≡ text.old.items ++ texts_to errand_lines n) }
{
    let mut i = 0;
    while i < n {
        i += 1;
        push_errand(text, i)?;
    }
    Ok(())
}
