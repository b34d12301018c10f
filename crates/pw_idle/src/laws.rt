ghost use Rattle.std.specs.Prelude.{◌≡◌, ◌≤◌, ℕ, List, length};
ghost use Rattle.acpi_values.specs.Idle.{rows_of};
ghost use Rattle.pw_plan.specs.declared.plan.Plan.{Plan as plan};
ghost use Rattle.pw_plan.specs.Places.{container_at};
ghost use Rattle.pw_model.specs.declared.state.State.{State as state};
ghost use Rattle.pw_model.specs.declared.state.Vote.{Vote as vote};
ghost use Rattle.pw_model.specs.States.{IsProper};
ghost use Rattle.pw_model.specs.Containers.{container_vote, node_vote};
ghost use Rattle.pw_model.specs.Records.{container, part_of};
ghost use Rattle.pw_idle.specs.declared.node.NodeRec.{NodeRec as node_rec};
ghost use Rattle.pw_idle.specs.Nodes.{IsNodeOf, node_part};

/// What a container votes may be handed to the record of the container around it, and a record that
/// holds its part of a state has the container's state in it.
pub fn node_records_hand_up()
    ensures fits { (P : plan) (n : ℕ) (vs : List vote)
        → (node_vote P n vs).state ≤ length (rows_of (container_at P n).idle) }
    ensures proper { (P : plan) (n : ℕ) (vs : List vote) → IsProper (node_vote P n vs) }
    ensures holds { (P : plan) (S : state) (r : node_rec) → IsNodeOf P r
        → node_part r ≡ part_of P S (container r.node) → r.state ≡ (container_vote P S r.node).state }
{}
