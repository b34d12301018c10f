//! Public calls of the base, of AML and of the namespace, each once on its happy path with ample memory, on a
//! worked example; and what no bytes lead to, so that no case of `pw_cases` can show it. What a clause proves
//! isn't tried here.

mod base;
mod block;
mod data;
mod names;
mod parts;
mod space;

use std::io;

/// Prints whether a call came out as it must; none where it can't be made.
fn print_call(rt: &HostRuntime, name: &str, came: Option<bool>) -> io::Result<()> {
    let told = match came {
        Some(true) => "as it must be",
        Some(false) => "otherwise",
        None => "can't be made, or want of memory",
    };
    println!(rt; "{name}: {told}")
}

pub(crate) fn print_calls(rt: &HostRuntime) -> io::Result<()> {
    let alloc = rt.alloc();
    for (name, came) in [
        (
            "lists_and_boxes_cross_threads",
            base::lists_and_boxes(alloc),
        ),
        ("files_of_the_system", base::system_files(*rt)),
        ("outputs_of_the_system", base::system_sinks(*rt)),
        ("terms", block::terms(alloc)),
        ("block", block::block(alloc)),
        ("block_of_a_file", block::block_of_a_file(alloc)),
        ("first_bytes_of_a_file", block::start_of_a_file(alloc)),
        ("object", data::object(alloc)),
        ("number_in_front", data::number(alloc)),
        ("packages_nest_32_deep", data::depth(alloc)),
        ("more_elements_than_counted", data::count(alloc)),
        ("name_of_no_part", data::name_of_no_part(alloc)),
        ("segments", names::segments()),
        ("name", names::name(alloc)),
        ("name_in_front", names::name_in_front(alloc)),
        ("parts_at_a_place", parts::parts_at_a_place()),
        ("parts_written", parts::parts_written(alloc)),
        ("parts_in_front", parts::parts_in_front()),
        ("widths_of_integers", space::widths(alloc)),
        ("objects_by_path_and_segment", space::objects(alloc)),
    ] {
        print_call(rt, name, came)?;
    }
    Ok(())
}
