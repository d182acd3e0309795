// The order list of a finish.
ghost use Rattle.std.specs.Prelude.{◌≡◌};
ghost use Rattle.frames.specs.Ids.{among};
ghost use Rattle.sections.specs.Order.{order_ids, all_among};

fn is_order_id(id: u8) -> bool
    ensures { result ≡ among order_ids id }
{
    id == 12 || frames::is_section(id)
}

// Whether an order list has only ids that it may have.
pub fn is_order(order: &[u8]) -> bool
    ensures { result ≡ all_among order_ids order.now }
{
    order.iter().all(|&id| is_order_id(id))
}
