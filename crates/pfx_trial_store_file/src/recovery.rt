//! The laws at concrete types. What they say of small files stands in the proofs of the tested crate.

use pfx_store_image::laws;

#[test]
fn laws_hold_at_any_types() {
    laws::store_is_recovered::<u32, Vec<u8>>();
    laws::recovered_is_store::<u32, Vec<u8>>();
    laws::refused_for_a_cause::<u32, Vec<u8>>();
    laws::header_is_the_cause::<u32, Vec<u8>>();
    laws::new_file_is_store::<u32, Vec<u8>>();
    laws::bytes_of_new_file::<u32, Vec<u8>>();
    laws::append_step::<u32, Vec<u8>>();
    laws::turn_step::<u32, Vec<u8>>();
    laws::close_step::<u32, Vec<u8>>();
    laws::piece_step::<u32, Vec<u8>>();
    laws::open_step::<u32, Vec<u8>>();
    laws::toy_keeps_the_laws();
}
